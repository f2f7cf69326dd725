//! How a tag is written in a line of text: `nm_dump` writes tags so, and lines of `tag --batch` have them so.

ghost use Rattle.std.specs.Prelude.{◌≡◌, ◌++◌, IfOk, OnOk, string_bytes};
ghost use Rattle.nm_tags.specs.Encoding.{encoded_byte, encoded_tag, escaped, is_sign, is_written};

use nm_base::{NoMemory, Tag, Text};
use std::alloc::Global;

const SIGNS: &[u8] = b"@=.,_+-";

/// The tag in ASCII letters, digits and `@=.,_+-`, each other byte as `%` and two lower-case hex digits.
pub fn encode_tag(alloc: Global, tag: &Tag) -> Result<Text, NoMemory>
    ensures { IfOk result (λ text. text ≡ encoded_tag tag.now) }
{
    let mut written = String::new(alloc);
    'bytes: for byte in tag.text().as_bytes() {
        push_byte(&mut written, *byte)?;
    }
    Text::from_string(written)
}

fn push_byte(written: &mut String, byte: u8) -> Result<(), NoMemory>
    ensures { OnOk result (string_bytes written.new ≡ string_bytes written.old ++ encoded_byte byte) }
{
    if is_written(byte) {
        written.push(char::from(byte))?;
        return Ok(());
    }
    push_escape(written, byte)
}

fn push_escape(written: &mut String, byte: u8) -> Result<(), NoMemory>
    ensures { OnOk result (string_bytes written.new ≡ string_bytes written.old ++ escaped byte) }
{
    let digits = hex::encode(*written.allocator(), [byte])?;
    written.push('%')?;
    written.push_str(digits.as_str())?;
    Ok(())
}

fn is_written(byte: u8) -> bool
    ensures { result ≡ is_written byte }
{
    byte.is_ascii_alphanumeric() || is_sign(byte)
}

fn is_sign(byte: u8) -> bool
    ensures { result ≡ is_sign byte }
{
    SIGNS.iter().any(|sign| byte == *sign)
}
