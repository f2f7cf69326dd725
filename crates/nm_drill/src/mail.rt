//! A mail of the store, for `tree`.

ghost use Rattle.std.specs.Prelude.{◌≡◌, ◌≤◌, IfOk};
ghost use Rattle.nm_drill.specs.Drill.{drill_mail};

use crate::answered::answered;
use crate::lines::{body_of, date_line, from_line, id_line, references_line, subject_line};
use nm_base::{Many, NoMemory};
use std::alloc::Global;

/// The mail of this number.
pub(crate) fn drill_mail(alloc: Global, number: u32) -> Result<Many<u8>, NoMemory>
    requires least { 1 ≤ number }
    requires most { number ≤ 20000 }
    ensures { IfOk result (λ mail. mail ≡ drill_mail number) }
{
    let mut mail = Many::from_slice(alloc, from_line(alloc, number)?.as_bytes())?;
    mail.extend_from_slice(subject_line(alloc, number)?.as_bytes())?;
    mail.extend_from_slice(id_line(alloc, number)?.as_bytes())?;
    mail.extend_from_slice(date_line(alloc, number)?.as_bytes())?;
    mail.extend_from_slice(references_line(alloc, answered(number))?.as_bytes())?;
    mail.extend_from_slice(body_of(alloc, number)?.as_bytes())?;
    Ok(mail)
}
