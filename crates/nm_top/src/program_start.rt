//! The program: reads its leading options, opens the folders that they name, and makes the call of the words after them; `main` makes it.

ghost use Rattle.std.specs.Prelude.{◌≡◌, ◌≤◌, pos, length, ◌≤ℤ◌};
ghost use Rattle.nm_base.specs.Limits.{max_date};
ghost use Rattle.nm_history.specs.Call.{devices};
ghost use Rattle.nm_top.specs.Program.{IsProgram, command_words, paths, setting_by};

use crate::call_end::ended_early;
use crate::top_call::notmuch;
use nm_base::Text;
use nm_command::{HeadError, Leading, head};
use nm_disk::DiskFolder;
use nm_io::{Sink, Source};
use nm_log::{Done, Setting};
use nm_maildir::MailFolder;
use nm_workers::OpenGate;
use std::alloc::Global;
use std::sync::Wait;
use std::thread::Threads;

/// What a run begins with beside its words and devices.
#[derive(Drop)]
pub struct Start {
    /// The present second, counted from 1970-01-01 00:00:00 UTC.
    pub moment: i64,
    /// A number that no other run has.
    pub seed: u128,
}

/// Runs the program: the words begin with options, each `--name=value`; then the mail folder and the index are opened, and the words after
/// the options are the call.
pub fn program<R: Threads + Wait + Sync, M: MailFolder, D: DiskFolder, I: Source, O: Sink, E: Sink>(
    rt: &R,
    alloc: Global,
    start: &Start,
    words: &[Text],
    mail: &mut M,
    disk: &mut D,
    input: &mut I,
    out: &mut O,
    err: &mut E,
) -> Done
    requires from_1970 { pos 0 ≤ℤ start.now.moment }
    requires moment { start.now.moment ≤ℤ pos max_date }
    ensures { IsProgram start.now words.now (paths (M.tree_at mail.old) (D.moments_at disk.old))
        (devices (M.observed mail.old) (D.observed disk.old) (I.observed input.old) (O.observed out.old) (E.observed err.old))
        (devices (M.observed mail.new) (D.observed disk.new) (I.observed input.new) (O.observed out.new) (E.observed err.new)) result }
{
    match head(alloc, words) {
        Ok(leading) => match mail.open(&leading.mail) {
            Ok(()) => match disk.open(&leading.index) {
                Ok(()) => {
                    let setting = setting_by(start, &leading);
                    let command = command_words(words, &leading);
                    notmuch(
                        rt, alloc, command, &setting, mail, disk, input, out, err, &OpenGate,
                    )
                }
                Err(_) => ended_early(alloc, err, 4, b"notmuch: cannot open\n"),
            },
            Err(_) => ended_early(alloc, err, 3, b"notmuch: cannot open\n"),
        },
        Err(HeadError::Usage) => ended_early(alloc, err, 2, b"notmuch: usage\n"),
        Err(HeadError::NoMemory) => ended_early(alloc, err, 7, b"notmuch: no memory\n"),
    }
}

/// The words after the options.
fn command_words<'a>(words: &'a [Text], leading: &Leading) -> &'a [Text]
    requires rest { leading.now.rest ≤ length words.now }
    ensures { result.now ≡ command_words words.now leading.now }
{
    words.split_at(leading.rest).1
}

/// What the options say; where they name no present second, it is that of the start.
fn setting_by(start: &Start, leading: &Leading) -> Setting
    ensures { result ≡ setting_by start.now leading.now }
{
    Setting {
        moment: leading.moment.unwrap_or(start.moment),
        seed: start.seed,
        workers: leading.workers,
    }
}
