//! What a command asks for: `nm_log` reads a line of a script as one, and a `Step` of the machine has it.

use nm_base::{Copies, CountAsk, DumpAsk, NoMemory, RestoreAsk, SearchAsk, ShowAsk, TagAsk};

/// What a command asks for.
#[derive(Drop)]
pub enum Request {
    /// Add the mail that the folder holds anew, and remove what it lacks.
    New,
    Count(CountAsk),
    Search(SearchAsk),
    Dump(DumpAsk),
    Show(ShowAsk),
    /// Set tags, and rename the files that follow.
    Tag(TagAsk),
    /// Set the tags that a dump has.
    Restore(RestoreAsk),
}

impl Copies for Request {
    fn copy(&self) -> Result<Request, NoMemory> {
        match self {
            Request::New => Ok(Request::New),
            Request::Count(ask) => {
                let ask = ask.copy()?;
                Ok(Request::Count(ask))
            }
            Request::Search(ask) => {
                let ask = ask.copy()?;
                Ok(Request::Search(ask))
            }
            Request::Dump(ask) => {
                let ask = ask.copy()?;
                Ok(Request::Dump(ask))
            }
            Request::Show(ask) => {
                let ask = ask.copy()?;
                Ok(Request::Show(ask))
            }
            Request::Tag(ask) => {
                let ask = ask.copy()?;
                Ok(Request::Tag(ask))
            }
            Request::Restore(ask) => {
                let ask = ask.copy()?;
                Ok(Request::Restore(ask))
            }
        }
    }
}
