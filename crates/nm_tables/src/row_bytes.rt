//! The bytes of a row, in whose order rows are `kept`.

ghost use Rattle.std.specs.Prelude.{◌≡◌, ◌++◌, ◌<◌, ◌^◌, IfOk, OnOk, Some, length, refl, nat_eq};
ghost use Rattle.std.specs.Cmp.{partial_equiv_from_equiv};
ghost use Rattle.std.specs.Cmp.Lexicographic.{nat_list_cmp_total, nat_list_eq_equiv, pointwise, slice_cmp, texts_po, texts_ties};
ghost use Rattle.std.specs.List.{flat_map, starts_with};
ghost use Rattle.std.specs.Ordering.{nat_cmp};
ghost use Rattle.nm_codec.specs.Encoding.{text_bytes};
ghost use Rattle.nm_model_index.specs.Index.{row_bytes};

use nm_base::{Copies, LinkRow, Many, MessageId, NoMemory};
use nm_codec::Writer;
use nm_shared::Shared;
use std::alloc::Global;
use std::cmp::Ordering;
use std::marker::Model;

/// The bytes of a row, seen as the list of them.
pub struct RowBytes {
    bytes: Shared<Many<u8>>,
}

impl Model for RowBytes {
    ghost use Rattle.std.specs.Prelude.{List, ℕ};

    ghost Value = { List ℕ };

    ghost view = { λ r. r.bytes };
}

impl Drop for RowBytes {
    fn drop(self) {
        let RowBytes { bytes: _ } = self;
    }
}

impl RowBytes {
    /// The words of the row.
    pub fn of(alloc: Global, row: &LinkRow) -> Result<RowBytes, NoMemory>
        ensures { IfOk result (λ bytes. bytes ≡ row_bytes row.now) }
    {
        let Ok(count) = u32::try_from(row.links.len()) else {
            return Err(NoMemory);
        };
        let mut writer = Writer::new(alloc);
        put_id(&mut writer, &row.id)?;
        writer.put_u32(count)?;
        put_ids(&mut writer, row.links.as_slice())?;
        Ok(RowBytes {
            bytes: Shared::new(alloc, writer.finish())?,
        })
    }

    /// What the rows of a mail begin with.
    pub fn start(alloc: Global, id: &MessageId) -> Result<RowBytes, NoMemory>
        ensures { IfOk result (λ bytes. bytes ≡ text_bytes id.now) }
    {
        let mut writer = Writer::new(alloc);
        put_id(&mut writer, id)?;
        Ok(RowBytes {
            bytes: Shared::new(alloc, writer.finish())?,
        })
    }

    pub fn begins_with(&self, start: &RowBytes) -> bool
        ensures { result ≡ starts_with nat_eq self.now start.now }
    {
        self.as_slice().starts_with(start.as_slice())
    }

    pub fn as_slice(&self) -> &[u8]
        ensures { result.now ≡ self.now }
    {
        self.bytes.get().as_slice()
    }
}

fn put_id(writer: &mut Writer, id: &MessageId) -> Result<(), NoMemory>
    ensures { OnOk result (writer.new ≡ writer.old ++ text_bytes id.now) }
{
    writer.put_text(id.text())?;
    Ok(())
}

fn put_ids(writer: &mut Writer, ids: &[MessageId]) -> Result<(), NoMemory>
    ensures { OnOk result (writer.new ≡ writer.old ++ flat_map text_bytes ids.now) }
{
    'ids: for id in ids {
        put_id(writer, id)?;
    }
    Ok(())
}

impl Copies for RowBytes {
    fn copy(&self) -> Result<RowBytes, NoMemory> {
        Ok(RowBytes {
            bytes: self.bytes.copy()?,
        })
    }
}

impl PartialEq for RowBytes {
    ghost eq = { pointwise nat_eq };

    ghost laws = { partial_equiv_from_equiv nat_list_eq_equiv };

    fn eq(&self, other: &RowBytes) -> bool {
        self.as_slice() == other.as_slice()
    }
}

impl Eq for RowBytes {
    ghost laws = { nat_list_eq_equiv };
}

impl PartialOrd for RowBytes {
    ghost partial_cmp = { λ x y. Some (slice_cmp nat_cmp x y) };

    ghost laws = { texts_po };

    fn partial_cmp(&self, other: &RowBytes) -> Option<Ordering> {
        Some(self.cmp(other))
    }
}

impl Ord for RowBytes {
    ghost cmp = { slice_cmp nat_cmp };

    ghost total = { nat_list_cmp_total };

    ghost matches_partial_cmp = { λ x y. refl };

    ghost matches_eq = { texts_ties };

    fn cmp(&self, other: &RowBytes) -> Ordering {
        self.as_slice().cmp(other.as_slice())
    }
}
