//! The header of a reply, written without memory of the heap, for `print`.
ghost use Rattle.std.specs.Prelude.{◌≡◌, ◌+◌, ◌≤◌, ◌++◌, length};
ghost use Rattle.arrayvec.specs.ArrayString.{array_string_len};
ghost use Rattle.nm_model_answer.specs.NewText.{number_after};
ghost use Rattle.nm_log.specs.Replies.{header_of};

use crate::LineLog;
use arrayvec::ArrayString;
use itoa::Buffer;

/// A header as it is written, in memory of its own: five numbers of at most 20 digits, and six bytes beside them.
pub(crate) type Header = ArrayString<106>;

/// What is printed before a reply.
pub(crate) fn header_of(log: &LineLog) -> Header
    ensures { result.bytes ≡ header_of log.now }
{
    let mut header = Header::new();
    push_number(&mut header, "@", u64::from(log.lane));
    push_number(&mut header, " ", u64::from(log.line));
    push_number(&mut header, " ", log.revision);
    push_number(&mut header, " ", u64::from(log.status));
    push_number(&mut header, " ", log.text.len() as u64);
    header.push_str("\n");
    header
}

fn push_number(header: &mut Header, before: &str, n: u64)
    requires { array_string_len header.old + (length before.now + 20) ≤ 106 }
    ensures bytes { header.new.bytes ≡ header.old.bytes ++ number_after before.now n }
    ensures len { array_string_len header.new ≤ array_string_len header.old + (length before.now + 20) }
{
    let mut buffer = Buffer::new();
    header.push_str(before);
    header.push_str(buffer.format(n));
}
