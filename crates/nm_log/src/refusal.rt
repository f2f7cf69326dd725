//! Why a whole call is refused, and how that is printed: `nm_top` ends with it.

ghost use Rattle.std.specs.Prelude.{◌≡◌, ◌++◌, codes, is_err};
ghost use Rattle.nm_io.specs.Observed.{Puts, StreamAppends};
ghost use Rattle.nm_log.specs.Refusals.{bad_index_line, file_name, refused_line, refused_status};
ghost use Rattle.nm_log.specs.Replies.{limit_line};

use crate::print::{print_text, print_usage, put_five, put_three};
use crate::replies::limit_name;
use itoa::Buffer;
use nm_base::{Failed, Limit, Text, UsageKind};
use nm_disk::FileNo;
use nm_io::Sink;

/// Why a call was refused before a line ran.
#[derive(Drop)]
pub enum Refusal {
    /// The words of the call are outside the grammar; `word` is the one at fault.
    Usage { word: Text, kind: UsageKind },
    ReadFault,
    DiskFault,
    /// From this place on the file holds no index.
    BadIndex { file: FileNo, at: u64 },
    /// Of the input, or of the index on the disk.
    Limit(Limit),
    NoMemory,
}

/// The status of a call that was refused so.
pub fn refused_status(refusal: &Refusal) -> u8
    ensures { result ≡ refused_status refusal.now }
{
    match refusal {
        Refusal::Usage { .. } => 2,
        Refusal::ReadFault => 5,
        Refusal::DiskFault => 4,
        Refusal::BadIndex { .. } => 8,
        Refusal::Limit(_) => 9,
        Refusal::NoMemory => 7,
    }
}

/// Prints the line of the refusal, and flushes. It takes no memory.
pub fn print_refusal<E: Sink>(err: &mut E, refusal: &Refusal) -> Result<(), Failed>
    ensures { StreamAppends (is_err result) (E.observed err.old) (E.observed err.new) (refused_line refusal.now) }
{
    match refusal {
        Refusal::Usage { word, kind } => print_usage(err, *kind, word.as_str()),
        Refusal::ReadFault => print_text(err, b"notmuch: read fault\n"),
        Refusal::DiskFault => print_text(err, b"notmuch: disk fault\n"),
        Refusal::BadIndex { file, at } => print_bad_index(err, *file, *at),
        Refusal::Limit(limit) => print_limit(err, *limit),
        Refusal::NoMemory => print_text(err, b"notmuch: no memory\n"),
    }
}

#[tactic(auto, using(crate::proofs::Puts::puts))]
fn print_bad_index<E: Sink>(err: &mut E, file: FileNo, at: u64) -> Result<(), Failed>
    ensures { StreamAppends (is_err result) (E.observed err.old) (E.observed err.new) (bad_index_line file at) }
{
    put_bad_index(err, file, at)?;
    err.flush()
}

fn put_bad_index<E: Sink>(err: &mut E, file: FileNo, at: u64) -> Result<(), Failed>
    ensures { Puts (E.observed err.old) (E.observed err.new) result (bad_index_line file at) }
{
    let mut buffer = Buffer::new();
    let name = file_name(file);
    let place = buffer.format(at);
    put_place(err, name, place)
}

/// One put for each piece.
fn put_place<E: Sink>(err: &mut E, name: &str, place: &str) -> Result<(), Failed>
    ensures { Puts (E.observed err.old) (E.observed err.new) result (codes "notmuch: bad index: file " ++ (name.now ++ (codes " at " ++ (place.now ++ codes "\n")))) }
{
    put_five(
        err,
        b"notmuch: bad index: file ",
        name.as_bytes(),
        b" at ",
        place.as_bytes(),
        b"\n",
    )
}

fn file_name(file: FileNo) -> &'static str
    ensures { result.now ≡ file_name file }
{
    match file {
        FileNo::Head => "0",
        FileNo::BankA => "1",
        FileNo::BankB => "2",
    }
}

#[tactic(auto, using(crate::proofs::Puts::puts))]
fn print_limit<E: Sink>(err: &mut E, limit: Limit) -> Result<(), Failed>
    ensures { StreamAppends (is_err result) (E.observed err.old) (E.observed err.new) (limit_line limit) }
{
    put_limit(err, limit)?;
    err.flush()
}

fn put_limit<E: Sink>(err: &mut E, limit: Limit) -> Result<(), Failed>
    ensures { Puts (E.observed err.old) (E.observed err.new) result (limit_line limit) }
{
    let name = limit_name(limit);
    put_three(err, b"notmuch: limit: ", name.as_bytes(), b"\n")
}
