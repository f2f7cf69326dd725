//! The messages that have a file, by their numbers, each with its files, which a `snapshot` lists.

ghost use Rattle.std.specs.Prelude.{◌≡◌, length};
ghost use Rattle.std.specs.Iterator.{at_most};
ghost use Rattle.std.specs.Map.Iter.{TakesFirst};
ghost use Rattle.nm_tables.specs.FileTable.{AreFiled, files_in};
ghost use Rattle.nm_state.specs.Messages.{id_and_files, live_messages};

use nm_base::MessageId;
use nm_tables::{FileTable, MessageFiles, files_by_hint};
use nm_threads::Entries;
use std::marker::Model;

/// Messages that have a file, by rising numbers, each with its files. A contract sees those that are left.
#[derive(Drop)]
pub struct LiveMessages<'a> {
    rest: Entries<'a>,
    file_table: &'a FileTable,
    /// Where the files of the next one are looked for first: messages mostly came in the order of their numbers.
    slot_hint: u64,
}

impl<'a> Model for LiveMessages<'a> {
    ghost use Rattle.std.specs.Prelude.{List, ℕ};
    ghost use Rattle.nm_base.specs.declared.facts.Facts.{Facts};
    ghost use Rattle.nm_tables.specs.FileTable.{AreFiled, files_in};
    ghost use Rattle.nm_state.specs.Messages.{live_messages};

    ghost Value = { List (List ℕ × List (List ℕ × Facts)) };

    ghost view = { λ l. live_messages (files_in l.file_table.now) l.rest };

    ghost invariant = { λ l. AreFiled l.file_table.now };
}

impl<'a> LiveMessages<'a> {
    pub(crate) fn of(rest: Entries<'a>, file_table: &'a FileTable) -> LiveMessages<'a>
        requires { AreFiled file_table.now }
        ensures { result ≡ live_messages (files_in file_table.now) rest.entry }
    {
        LiveMessages {
            rest,
            file_table,
            slot_hint: 0,
        }
    }

    /// Where the message that was read last came among all messages, or about there: its tags are near this too.
    pub fn slot_hint(&self) -> u64 {
        self.slot_hint.saturating_sub(1)
    }
}

impl<'a> Iterator for LiveMessages<'a> {
    type Item = (&'a MessageId, MessageFiles<'a>);

    ghost next_gives = { TakesFirst id_and_files };

    ghost remaining = { λ l. at_most (length l) };

    fn next(&mut self) -> Option<(&'a MessageId, MessageFiles<'a>)> {
        'entries: loop {
            let (id, _) = self.rest.next()?;
            if let Some((slot_hint, files)) = files_by_hint(self.file_table, id, self.slot_hint) {
                self.slot_hint = slot_hint;
                return Some((id, files));
            }
        }
    }
}
