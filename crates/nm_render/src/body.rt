//! The body of a message as `show` prints it, for `message`: the texts that a read of its lead file found, or why there
//! are none.

ghost use Rattle.std.specs.Prelude.{◌≡◌, ◌++◌, OnOk};
ghost use Rattle.std.specs.List.{flat_map};
ghost use Rattle.nm_model_answer.specs.Show.{body_text, ended, given_text};
ghost use Rattle.nm_extract.specs.PartText.{bodies_of};

use nm_base::{Many, NoMemory};
use nm_extract::bodies;
use nm_maildir::{Given, ReadAnswer};
use std::alloc::Global;

/// Adds what is shown of what the folder gave.
pub(crate) fn push_given(alloc: Global, text: &mut Many<u8>, given: &Given) -> Result<(), NoMemory>
    ensures { OnOk result (text.new ≡ text.old ++ given_text given.now) }
{
    match given {
        Given::Listed(_) => Ok(()),
        Given::Read { path: _, answer } => push_body(alloc, text, answer),
        Given::Renamed { .. } => Ok(()),
    }
}

fn push_body(alloc: Global, text: &mut Many<u8>, answer: &ReadAnswer) -> Result<(), NoMemory>
    ensures { OnOk result (text.new ≡ text.old ++ body_text answer.now) }
{
    match answer {
        ReadAnswer::Mail => Ok(()),
        ReadAnswer::NotMail => Ok(()),
        ReadAnswer::Missing => text.extend_from_slice(b"missing\n"),
        ReadAnswer::TooLong => text.extend_from_slice(b"too long\n"),
        ReadAnswer::Body(bytes) => push_texts(alloc, text, bytes.as_slice()),
    }
}

/// The texts of the readable parts of these bytes.
fn push_texts(alloc: Global, text: &mut Many<u8>, bytes: &[u8]) -> Result<(), NoMemory>
    ensures { OnOk result (text.new ≡ text.old ++ flat_map ended (bodies_of bytes.now)) }
{
    let bodies = bodies(alloc, bytes)?;
    'bodies: for body in bodies.as_slice() {
        push_ended(text, body.as_bytes())?;
    }
    Ok(())
}

/// A text, and LF where it doesn't end so.
fn push_ended(text: &mut Many<u8>, body: &[u8]) -> Result<(), NoMemory>
    ensures { OnOk result (text.new ≡ text.old ++ ended body.now) }
{
    text.extend_from_slice(body)?;
    if !body.ends_with(b"\n") {
        text.extend_from_slice(b"\n")?;
    }
    Ok(())
}
