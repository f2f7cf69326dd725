//! The lines of the faults of devices, made before one comes, since a commit may be in flight then. `new` and `change` have them.

ghost use Rattle.std.specs.Prelude.{◌≡◌, false, IfOk, MatchResult};
ghost use Rattle.nm_line.specs.BeforeChange.{AreFaultTexts};
ghost use Rattle.nm_line.specs.Line.{refused_with};
ghost use Rattle.nm_line.specs.Outcomes.{is_fault, outcome_of};

use crate::line_answer::{LineAnswer, refuse};
use nm_base::{Many, NoMemory};
use nm_log::{Outcome, refusal_line};
use nm_writer::WriteError;
use std::alloc::Global;

/// That of the mail folder, and that of the disk.
#[derive(Drop)]
pub(crate) struct FaultTexts {
    mail: Many<u8>,
    disk: Many<u8>,
}

pub(crate) fn fault_texts(alloc: Global) -> Result<FaultTexts, NoMemory>
    ensures { IfOk result AreFaultTexts }
{
    let mail = refusal_line(alloc, &Outcome::MailFault)?;
    let disk = refusal_line(alloc, &Outcome::DiskFault)?;
    Ok(FaultTexts { mail, disk })
}

/// The refusal of what writes; where a device failed it takes no memory.
pub(crate) fn refuse_write(
    alloc: Global,
    error: WriteError,
    texts: FaultTexts,
) -> Result<LineAnswer, NoMemory>
    requires { AreFaultTexts texts }
    ensures { MatchResult result
        (λ done. done ≡ refused_with (outcome_of error))
        (λ _. is_fault error ≡ false) }
{
    match error {
        WriteError::MailFault => Ok(LineAnswer {
            outcome: Outcome::MailFault,
            text: texts.mail,
            reply: None,
        }),
        WriteError::DiskFault => Ok(LineAnswer {
            outcome: Outcome::DiskFault,
            text: texts.disk,
            reply: None,
        }),
        WriteError::Closed { fault } => refuse(alloc, Outcome::Closed { fault }),
        WriteError::Limit(limit) => refuse(alloc, Outcome::Limit(limit)),
        WriteError::NoMemory => Err(NoMemory),
    }
}
