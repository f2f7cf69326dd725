//! Numbers in n digits, for `lines` and for the paths of `tree`.

ghost use Rattle.std.specs.Prelude.{◌≡◌, ◌≤◌, IfOk, string_bytes};
ghost use Rattle.nm_drill.specs.Drill.{clock_text, drill_path};

use std::alloc::{AllocError, Global};

/// A moment of a day as HH:MM:SS, by its seconds after midnight.
pub(crate) fn clock_text(alloc: Global, seconds: u32) -> Result<String, AllocError>
    requires { seconds ≤ 86399 }
    ensures { IfOk result (λ text. string_bytes text ≡ clock_text seconds) }
{
    let hour = seconds / 3600;
    let minute = seconds / 60 % 60;
    let second = seconds % 60;
    let text = format!(in alloc; "{hour:02}:{minute:02}:{second:02}")?;
    Ok(text)
}

/// Where a mail is.
pub(crate) fn path_text(alloc: Global, number: u32) -> Result<String, AllocError>
    requires { number ≤ 99999999 }
    ensures { IfOk result (λ text. string_bytes text ≡ drill_path number) }
{
    let text = format!(in alloc; "new/{number:08}")?;
    Ok(text)
}
