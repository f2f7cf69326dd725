//! The tree of a query; `parse` makes it.

ghost use Rattle.std.specs.Prelude.{◌≡◌, IfOk};

use nm_base::{Boxed, Copies, Field, Many, NoMemory, Text, WordList};
use nm_dates::End;
use std::alloc::Global;

/// What is asked of a message.
#[derive(Drop)]
pub enum Query {
    /// Every message.
    All,
    /// These words one after the other in one list of the field, or of any field. The last is the front of a word where
    /// `starts` is set. No words are in every message.
    Words {
        field: Option<Field>,
        words: WordList,
        starts: bool,
    },
    Tag(Text),
    Id(Text),
    /// The number of a thread; none is that of no thread.
    Thread(Option<u64>),
    /// A Maildir, by the path of its folder.
    Folder(Text),
    /// A folder, and with `deep` all that is below.
    Path {
        dir: Text,
        deep: bool,
    },
    /// A content type, or one half of it.
    Mime(Text),
    /// From the first second of one end to the last of the other; a missing end bounds nothing.
    Dates {
        from: Option<End>,
        to: Option<End>,
    },
    Not(Boxed<Query>),
    And(Many<Query>),
    Or(Many<Query>),
    Xor(Many<Query>),
}

impl Query {
    /// A query that equals this one.
    #[cycle(copying)]
    pub fn copy(&self, alloc: Global) -> Result<Query, NoMemory>
        ensures { IfOk result (λ copied. copied ≡ self.now) }
    {
        match self {
            Query::All => Ok(Query::All),
            Query::Words {
                field,
                words,
                starts,
            } => {
                let words = words.copy()?;
                Ok(Query::Words {
                    field: *field,
                    words,
                    starts: *starts,
                })
            }
            Query::Tag(text) => Ok(Query::Tag(text.copy()?)),
            Query::Id(text) => Ok(Query::Id(text.copy()?)),
            Query::Thread(number) => Ok(Query::Thread(*number)),
            Query::Folder(text) => Ok(Query::Folder(text.copy()?)),
            Query::Path { dir, deep } => {
                let dir = dir.copy()?;
                Ok(Query::Path { dir, deep: *deep })
            }
            Query::Mime(text) => Ok(Query::Mime(text.copy()?)),
            Query::Dates { from, to } => Ok(Query::Dates {
                from: *from,
                to: *to,
            }),
            Query::Not(query) => {
                let copied = query.get().copy(alloc)?;
                Ok(Query::Not(Boxed::new(alloc, copied)?))
            }
            Query::And(queries) => Ok(Query::And(copies(alloc, queries.as_slice())?)),
            Query::Or(queries) => Ok(Query::Or(copies(alloc, queries.as_slice())?)),
            Query::Xor(queries) => Ok(Query::Xor(copies(alloc, queries.as_slice())?)),
        }
    }
}

#[cycle(copying)]
fn copies(alloc: Global, queries: &[Query]) -> Result<Many<Query>, NoMemory>
    ensures { IfOk result (λ copied. copied ≡ queries.now) }
{
    let mut copied = Many::new(alloc);
    'queries: for query in queries {
        copied.push(query.copy(alloc)?)?;
    }
    Ok(copied)
}
