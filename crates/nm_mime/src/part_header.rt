//! The header of a part read: what kind of part it is. `part_reader` opens each part so.

ghost use Rattle.std.specs.Prelude.{◌≡◌, ◌+◌, ◌≤◌, IfOk, length};
ghost use Rattle.nm_mime.specs.Parts.{IsWithin, opening_from, opening_in, opening_of};

use crate::entity::{Entity, Opening, Part};
use crate::param_list::value_text;
use crate::roles::{Encoding, filename, fitting_role, is_attachment, named_encoding};
use crate::types::{ContentType, part_type};
use nm_base::{Copies, NoMemory};
use nm_header::{HeaderList, fields};
use std::alloc::Global;

/// The part of an entity, by its header.
pub(crate) fn read_opening(alloc: Global, bytes: &[u8], entity: Entity) -> Result<Opening, NoMemory>
    requires { IsWithin (length bytes.now) entity }
    ensures { IfOk result (λ opening. opening ≡ opening_of bytes.now entity) }
{
    let span = &bytes[entity.from..entity.to];
    let header = fields(alloc, span)?;
    let opening = read_fields(alloc, entity, &header)?;
    Ok(opening)
}

pub(crate) fn read_fields(
    alloc: Global,
    entity: Entity,
    header: &HeaderList,
) -> Result<Opening, NoMemory>
    requires { entity.from + header.now.rest ≤ entity.to }
    ensures { IfOk result (λ opening. opening ≡ opening_in entity header.now) }
{
    let kind = header.first_text(alloc, "content-type")?;
    let disposition = header.first_text(alloc, "content-disposition")?;
    let encoding = header.first_text(alloc, "content-transfer-encoding")?;
    let content_type = part_type(alloc, kind.as_str(), entity.digest)?;
    let encoding = named_encoding(encoding.as_bytes());
    opening_from(
        alloc,
        entity,
        header.rest,
        &content_type,
        disposition.as_str(),
        encoding,
    )
}

/// The part whose content begins `rest` bytes after the entity's front.
fn opening_from(
    alloc: Global,
    entity: Entity,
    rest: usize,
    content_type: &ContentType,
    disposition: &str,
    encoding: Encoding,
) -> Result<Opening, NoMemory>
    requires { entity.from + rest ≤ entity.to }
    ensures { IfOk result (λ opening. opening ≡ opening_from entity rest content_type.now disposition.now encoding) }
{
    let params = content_type.params.as_slice();
    let boundary = value_text(alloc, params, "boundary")?;
    let kind = content_type.kind.copy()?;
    let attached = is_attachment(disposition.as_bytes());
    let role = fitting_role(
        attached,
        entity.signature,
        entity.depth,
        kind.as_str(),
        boundary.as_str(),
        encoding,
    );
    let part = Part {
        depth: entity.depth,
        kind,
        charset: value_text(alloc, params, "charset")?,
        encoding,
        attached,
        filename: filename(alloc, disposition, params)?,
        role,
        from: entity.from + rest,
        to: entity.to,
    };
    Ok(Opening { part, boundary })
}
