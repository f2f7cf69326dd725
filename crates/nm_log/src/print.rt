//! Printing the log, and a refusal of the call's words, without memory; the top call and `main` call it.

ghost use Rattle.std.specs.Prelude.{◌++◌, is_err};
ghost use Rattle.nm_io.specs.Observed.{Puts, StreamAppends};
ghost use Rattle.nm_log.specs.Replies.{printed, printed_line, replies_alone, reply_of, usage_line};

use crate::LineLog;
use crate::header::header_of;
use crate::replies::{is_well, kind_name};
use nm_base::{Failed, UsageKind};
use nm_io::Sink;

/// Prints the replies of all lines, and flushes once. It takes no memory.
#[tactic(auto, using(crate::proofs::Puts::puts))]
pub fn print_lines<O: Sink>(out: &mut O, lines: &[LineLog]) -> Result<(), Failed>
    ensures { StreamAppends (is_err result) (O.observed out.old) (O.observed out.new) (printed lines.now) }
{
    put_lines(out, lines)?;
    out.flush()
}

fn put_lines<O: Sink>(out: &mut O, lines: &[LineLog]) -> Result<(), Failed>
    ensures { Puts (O.observed out.old) (O.observed out.new) result (printed lines.now) }
{
    'lines: for log in lines {
        print_line(out, log)?;
    }
    Ok(())
}

/// One put for the header and one for the text.
fn print_line<O: Sink>(out: &mut O, log: &LineLog) -> Result<(), Failed>
    ensures { Puts (O.observed out.old) (O.observed out.new) result (printed_line log.now) }
{
    let header = header_of(log);
    put_two(out, header.as_str().as_bytes(), log.text.as_slice())
}

/// Prints the replies without headers, as a single command does, and flushes once. It takes no memory.
#[tactic(auto, using(crate::proofs::Puts::puts))]
pub fn print_replies<O: Sink>(out: &mut O, lines: &[LineLog]) -> Result<(), Failed>
    ensures { StreamAppends (is_err result) (O.observed out.old) (O.observed out.new) (replies_alone lines.now) }
{
    put_replies(out, lines)?;
    out.flush()
}

fn put_replies<O: Sink>(out: &mut O, lines: &[LineLog]) -> Result<(), Failed>
    ensures { Puts (O.observed out.old) (O.observed out.new) result (replies_alone lines.now) }
{
    'lines: for log in lines {
        print_reply(out, log)?;
    }
    Ok(())
}

/// One put for the text; of a refusal an empty one.
fn print_reply<O: Sink>(out: &mut O, log: &LineLog) -> Result<(), Failed>
    ensures { Puts (O.observed out.old) (O.observed out.new) result (reply_of log.now) }
{
    if is_well(&log.outcome) {
        return out.put(log.text.as_slice());
    }
    out.put(b"")
}

/// Prints a text, and flushes. It takes no memory.
#[tactic(auto, using(crate::proofs::Puts::puts))]
pub fn print_text<E: Sink>(err: &mut E, text: &[u8]) -> Result<(), Failed>
    ensures { StreamAppends (is_err result) (E.observed err.old) (E.observed err.new) text.now }
{
    err.put(text)?;
    err.flush()
}

/// Prints the line that refuses words, and flushes. It takes no memory.
#[tactic(auto, using(crate::proofs::Puts::puts))]
pub fn print_usage<E: Sink>(err: &mut E, kind: UsageKind, word: &str) -> Result<(), Failed>
    ensures { StreamAppends (is_err result) (E.observed err.old) (E.observed err.new) (usage_line kind word.now) }
{
    put_usage(err, kind, word)?;
    err.flush()
}

fn put_usage<E: Sink>(err: &mut E, kind: UsageKind, word: &str) -> Result<(), Failed>
    ensures { Puts (E.observed err.old) (E.observed err.new) result (usage_line kind word.now) }
{
    let kind = kind_name(kind);
    put_five(
        err,
        b"notmuch: usage: ",
        kind.as_bytes(),
        b": ",
        word.as_bytes(),
        b"\n",
    )
}

pub(crate) fn put_five<E: Sink>(
    err: &mut E,
    a: &[u8],
    b: &[u8],
    c: &[u8],
    d: &[u8],
    e: &[u8],
) -> Result<(), Failed>
    ensures { Puts (E.observed err.old) (E.observed err.new) result (a.now ++ (b.now ++ (c.now ++ (d.now ++ e.now)))) }
{
    err.put(a)?;
    put_four(err, b, c, d, e)
}

fn put_four<E: Sink>(err: &mut E, a: &[u8], b: &[u8], c: &[u8], d: &[u8]) -> Result<(), Failed>
    ensures { Puts (E.observed err.old) (E.observed err.new) result (a.now ++ (b.now ++ (c.now ++ d.now))) }
{
    err.put(a)?;
    put_three(err, b, c, d)
}

pub(crate) fn put_three<E: Sink>(err: &mut E, a: &[u8], b: &[u8], c: &[u8]) -> Result<(), Failed>
    ensures { Puts (E.observed err.old) (E.observed err.new) result (a.now ++ (b.now ++ c.now)) }
{
    err.put(a)?;
    put_two(err, b, c)
}

fn put_two<E: Sink>(err: &mut E, a: &[u8], b: &[u8]) -> Result<(), Failed>
    ensures { Puts (E.observed err.old) (E.observed err.new) result (a.now ++ b.now) }
{
    err.put(a)?;
    err.put(b)
}
