//! The tags that the names of files give a message: `nm_writer` sets them in `new`.

ghost use Rattle.std.specs.Prelude.{◌≡◌, true, IfOk};
ghost use Rattle.nm_base.specs.Tag.{is_tag};
ghost use Rattle.nm_flags.specs.FlagTags.{any_draft, any_flagged, any_passed, any_replied, any_seen, name_ops, op_of, tags_by_names};

use nm_base::{MailPath, Many, NoMemory, Tag, TagOp, Tags, Text};
use nm_name::parse_name;
use nm_tags::apply_ops;
use std::alloc::Global;

/// The tags after the names of all files of a message: `draft`, `flagged`, `passed` and `replied` where a file has the flag, and
/// `unread` where none has S. Other tags stay.
pub fn tags_from_names(alloc: Global, tags: &Tags, paths: &Many<MailPath>) -> Result<Tags, NoMemory>
    ensures { IfOk result (λ after. after ≡ tags_by_names tags.now paths.now) }
{
    let ops = name_ops(alloc, paths.as_slice())?;
    apply_ops(alloc, tags, false, &ops)
}

fn name_ops(alloc: Global, paths: &[MailPath]) -> Result<Many<TagOp>, NoMemory>
    ensures { IfOk result (λ ops. ops ≡ name_ops paths.now) }
{
    let mut ops = Many::new(alloc);
    ops.push(op_of(alloc, any_draft(paths), "draft")?)?;
    ops.push(op_of(alloc, any_flagged(paths), "flagged")?)?;
    ops.push(op_of(alloc, any_passed(paths), "passed")?)?;
    ops.push(op_of(alloc, any_replied(paths), "replied")?)?;
    ops.push(op_of(alloc, !any_seen(paths), "unread")?)?;
    Ok(ops)
}

fn op_of(alloc: Global, set: bool, name: &str) -> Result<TagOp, NoMemory>
    requires { is_tag name.now ≡ true }
    ensures { IfOk result (λ op. op ≡ op_of set name.now) }
{
    let Ok(tag) = Tag::new(Text::of(alloc, name)?) else {
        unreachable!()
    };
    Ok(TagOp { add: set, tag })
}

fn any_draft(paths: &[MailPath]) -> bool
    ensures { result ≡ any_draft paths.now }
{
    paths.iter().any(|path| parse_name(path).draft)
}

fn any_flagged(paths: &[MailPath]) -> bool
    ensures { result ≡ any_flagged paths.now }
{
    paths.iter().any(|path| parse_name(path).flagged)
}

fn any_passed(paths: &[MailPath]) -> bool
    ensures { result ≡ any_passed paths.now }
{
    paths.iter().any(|path| parse_name(path).passed)
}

fn any_replied(paths: &[MailPath]) -> bool
    ensures { result ≡ any_replied paths.now }
{
    paths.iter().any(|path| parse_name(path).replied)
}

fn any_seen(paths: &[MailPath]) -> bool
    ensures { result ≡ any_seen paths.now }
{
    paths.iter().any(|path| parse_name(path).seen)
}
