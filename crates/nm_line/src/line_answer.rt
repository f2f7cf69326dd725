//! What comes of a line: a reply, or the line of its refusal. `lane_zero`, `other_lane` and each command make one, and `nm_phase` notes it.

ghost use Rattle.std.specs.Prelude.{◌≡◌, IfOk, MatchResult, None};
ghost use Rattle.nm_line.specs.Line.{refused_with, replied_with};

use nm_base::{Copies, Many, NoMemory};
use nm_log::{Outcome, Said, refusal_line};
use nm_model_answer::Request;
use std::alloc::Global;

/// What came of a line beside its commits.
#[derive(Drop)]
pub struct LineAnswer {
    pub outcome: Outcome,
    pub text: Many<u8>,
    /// What was replied, where it went well.
    pub reply: Option<Said>,
}

/// The line went well.
pub(crate) fn replied(request: Request, text: Many<u8>) -> Result<LineAnswer, NoMemory>
    ensures { IfOk result (λ done. done ≡ replied_with request text) }
{
    let copied = text.copy()?;
    Ok(LineAnswer {
        outcome: Outcome::Ok,
        text,
        reply: Some(Said {
            request,
            text: copied,
        }),
    })
}

/// The line is refused.
pub(crate) fn refuse(alloc: Global, outcome: Outcome) -> Result<LineAnswer, NoMemory>
    ensures { IfOk result (λ done. done ≡ refused_with outcome) }
{
    let text = refusal_line(alloc, &outcome)?;
    Ok(LineAnswer {
        outcome,
        text,
        reply: None,
    })
}

/// The answer, or that of a line that runs out of memory.
pub fn answered_or(answered: Result<LineAnswer, NoMemory>, fallback: Many<u8>) -> LineAnswer
    ensures { MatchResult answered (λ done. result ≡ done) (λ _. result ≡ record { outcome = Outcome.NoMemory; text = fallback; reply = None }) }
{
    match answered {
        Ok(done) => done,
        Err(_) => LineAnswer {
            outcome: Outcome::NoMemory,
            text: fallback,
            reply: None,
        },
    }
}
