//! What the words of a command ask for: `command` gives it, and `nm_log` goes on with it.

use nm_base::{Copies, CountAsk, DumpAsk, NoMemory, RestoreAsk, SearchAsk, ShowAsk, TagAsk};

/// What a command asks for.
#[derive(Drop)]
pub enum Request {
    New,
    Search(SearchAsk),
    Count(CountAsk),
    Show(ShowAsk),
    Tag(TagAsk),
    Dump(DumpAsk),
    Restore(RestoreAsk),
    /// A trial over n mails, 1 to 20,000.
    Drill(u32),
    Session,
}

impl Copies for Request {
    fn copy(&self) -> Result<Request, NoMemory> {
        match self {
            Request::New => Ok(Request::New),
            Request::Search(ask) => {
                let ask = ask.copy()?;
                Ok(Request::Search(ask))
            }
            Request::Count(ask) => {
                let ask = ask.copy()?;
                Ok(Request::Count(ask))
            }
            Request::Show(ask) => {
                let ask = ask.copy()?;
                Ok(Request::Show(ask))
            }
            Request::Tag(ask) => {
                let ask = ask.copy()?;
                Ok(Request::Tag(ask))
            }
            Request::Dump(ask) => {
                let ask = ask.copy()?;
                Ok(Request::Dump(ask))
            }
            Request::Restore(ask) => {
                let ask = ask.copy()?;
                Ok(Request::Restore(ask))
            }
            Request::Drill(count) => Ok(Request::Drill(*count)),
            Request::Session => Ok(Request::Session),
        }
    }
}
