//! The parts of a mail as a list; `nm_extract` asks it once a mail.

ghost use Rattle.std.specs.Prelude.{◌≡◌, IfOk, length};
ghost use Rattle.std.specs.List.{All};
ghost use Rattle.nm_mime.specs.Parts.{IsInside, parts_of};

use crate::entity::Part;
use crate::part_reader::PartReader;
use nm_base::{Many, NoMemory};
use nm_header::fields;
use std::alloc::Global;

/// The parts of a mail (RFC 2046, section 5), each before those in it. The mail itself is the first, at depth 0. At
/// depth 32 no part is opened, so that any bytes are read in a time linear in their number. The content of every part
/// is inside the bytes, from `from` up to `to`.
pub fn parts(alloc: Global, bytes: &[u8]) -> Result<Many<Part>, NoMemory>
    ensures value { IfOk result (λ parts. parts ≡ parts_of bytes.now) }
    ensures inside { IfOk result (λ parts. All (IsInside (length bytes.now)) parts) }
{
    let header = fields(alloc, bytes)?;
    let opened = PartReader::open(alloc, bytes, &header)?;
    let (whole, mut reader) = opened;
    let mut found = Many::new(alloc);
    found.push(whole)?;
    'parts: while let Some(part) = reader.next(alloc)? {
        found.push(part)?;
    }
    Ok(found)
}
