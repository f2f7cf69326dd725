//! The script of a drill, which `test_query` prints.

ghost use Rattle.std.specs.Prelude.{◌≡◌, IfOk};
ghost use Rattle.nm_drill.specs.Drill.{drill_script};

use nm_base::{Many, NoMemory};
use std::alloc::Global;

/// What a session over the store is asked.
const SCRIPT: &[u8] =
    b"0 new\n0 tag -unread -- subject:w1\n---\n1 count *\n2 count --output=threads *\n3 count not tag:unread\n4 search --limit=1 *\n";

/// The script of a session over the store: the mails are taken in and some are read, then four lanes read them.
pub fn drill_script(alloc: Global) -> Result<Many<u8>, NoMemory>
    ensures { IfOk result (λ script. script ≡ drill_script) }
{
    Many::from_slice(alloc, SCRIPT)
}
