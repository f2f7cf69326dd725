//! Operations on the tags of a message: `nm_writer` applies those of `tag` and `restore` so, `nm_flags` those of names.

ghost use Rattle.std.specs.Prelude.{◌≡◌, IfOk, OnOk};
ghost use Rattle.nm_tags.specs.Operations.{after_op, after_ops, begun_with};

use nm_base::{Copies, Many, NoMemory, TagOp, Tags};
use std::alloc::Global;

/// The tags after the operations, the first of them first; where `clear` is set they begin from no tag.
pub fn apply_ops(
    alloc: Global,
    tags: &Tags,
    clear: bool,
    ops: &Many<TagOp>,
) -> Result<Tags, NoMemory>
    ensures { IfOk result (λ after. after ≡ after_ops (begun_with clear tags.now) ops.now) }
{
    let mut after = first_tags(alloc, tags, clear)?;
    'ops: for op in ops.as_slice() {
        apply_op(&mut after, op)?;
    }
    Ok(after)
}

fn first_tags(alloc: Global, tags: &Tags, clear: bool) -> Result<Tags, NoMemory>
    ensures { IfOk result (λ first. first ≡ begun_with clear tags.now) }
{
    if clear {
        return Ok(Tags::new(alloc));
    }
    tags.copy()
}

fn apply_op(tags: &mut Tags, op: &TagOp) -> Result<(), NoMemory>
    ensures { OnOk result (tags.new ≡ after_op tags.old op.now) }
{
    if op.add {
        return tags.add(op.tag.copy()?);
    }
    tags.remove(&op.tag);
    Ok(())
}
