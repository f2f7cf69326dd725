//! A step of the machine, as the log of `nm_log` holds it: `nm_session` notes one for each thing that it does.

use nm_base::{Copies, Many, NoMemory};
use nm_commit::Commit;
use nm_model_answer::Request;

/// What may happen between commits and replies. Lanes are counted from 0.
#[derive(Drop)]
pub enum Step {
    /// A commit is on its way to the disk.
    Begin {
        commit: Commit,
    },
    /// It is there.
    Append,
    /// It is shown to the lanes; lane 0 sees it at once.
    Show,
    /// The lane sees what is shown.
    See {
        lane: u32,
    },
    /// All lanes see what is shown.
    Meet,
    /// The lane answers.
    Reply {
        lane: u32,
        request: Request,
        text: Many<u8>,
    },
    /// The program crashes; where `kept` holds, the commit on its way has reached the disk.
    Crash {
        kept: bool,
    },
    /// It is there again, with all commits that the disk has.
    Reopen,
}

impl Copies for Step {
    fn copy(&self) -> Result<Step, NoMemory> {
        match self {
            Step::Begin { commit } => {
                let commit = commit.copy()?;
                Ok(Step::Begin { commit })
            }
            Step::Append => Ok(Step::Append),
            Step::Show => Ok(Step::Show),
            Step::See { lane } => Ok(Step::See { lane: *lane }),
            Step::Meet => Ok(Step::Meet),
            Step::Crash { kept } => Ok(Step::Crash { kept: *kept }),
            Step::Reopen => Ok(Step::Reopen),
            Step::Reply {
                lane,
                request,
                text,
            } => {
                let request = request.copy()?;
                let text = text.copy()?;
                Ok(Step::Reply {
                    lane: *lane,
                    request,
                    text,
                })
            }
        }
    }
}
