//! The files that have to be renamed for the tags of their message; `tag` renames them.

ghost use Rattle.std.specs.Prelude.{◌≡◌, ◌++◌, ◌<◌, length, true, IfOk, OnOk};
ghost use Rattle.nm_base.specs.Limits.{max_path_bytes};
ghost use Rattle.nm_base.specs.Tag.{is_tag};
ghost use Rattle.nm_base.specs.Tags.{has_tag};
ghost use Rattle.nm_name.specs.FlaggedPath.{renamed};
ghost use Rattle.nm_flags.specs.Renames.{asked_flags, rename_to, renames};

use nm_base::{Copies, MailPath, Many, NoMemory, Tag, Tags, Text};
use nm_name::{Flags, NameError, with_flags};
use std::alloc::Global;

/// A file that has to be renamed.
#[derive(Drop)]
pub struct Rename {
    pub from: MailPath,
    /// None where the new path would have more than 4,096 bytes.
    pub to: Option<MailPath>,
}

/// The files of a message with these tags whose names have to change, in order, each with its new path.
pub fn rename_plan(
    alloc: Global,
    tags: &Tags,
    paths: &Many<MailPath>,
) -> Result<Many<Rename>, NoMemory>
    ensures { IfOk result (λ plan. plan ≡ renames tags.now paths.now) }
{
    let flags = asked_flags(alloc, tags)?;
    let mut plan = Many::new(alloc);
    'paths: for path in paths.as_slice() {
        add_rename(alloc, &mut plan, path, flags)?;
    }
    Ok(plan)
}

fn asked_flags(alloc: Global, tags: &Tags) -> Result<Flags, NoMemory>
    ensures { IfOk result (λ flags. flags ≡ asked_flags tags.now) }
{
    Ok(Flags {
        draft: has_tag(alloc, tags, "draft")?,
        flagged: has_tag(alloc, tags, "flagged")?,
        passed: has_tag(alloc, tags, "passed")?,
        replied: has_tag(alloc, tags, "replied")?,
        seen: !has_tag(alloc, tags, "unread")?,
        trashed: false,
    })
}

fn has_tag(alloc: Global, tags: &Tags, name: &str) -> Result<bool, NoMemory>
    requires { is_tag name.now ≡ true }
    ensures { IfOk result (λ has. has ≡ has_tag tags.now name.now) }
{
    let Ok(tag) = Tag::new(Text::of(alloc, name)?) else {
        unreachable!()
    };
    Ok(tags.has(&tag))
}

fn add_rename(
    alloc: Global,
    plan: &mut Many<Rename>,
    path: &MailPath,
    flags: Flags,
) -> Result<(), NoMemory>
    ensures { OnOk result (plan.new ≡ plan.old ++ rename_to path.now (renamed path.now flags)) }
{
    match with_flags(alloc, path, flags) {
        Ok(to) => add_target(plan, path, to),
        Err(NameError::Long) => add_long(plan, path, flags),
        Err(NameError::NoMemory) => Err(NoMemory),
    }
}

fn add_target(plan: &mut Many<Rename>, path: &MailPath, to: MailPath) -> Result<(), NoMemory>
    ensures { OnOk result (plan.new ≡ plan.old ++ rename_to path.now to) }
{
    let _ = to.text();
    if *path == to {
        return Ok(());
    }
    let from = path.copy()?;
    plan.push(Rename { from, to: Some(to) })
}

/// A file whose new path would be too long; that is no path, so it isn't the file's own.
fn add_long(plan: &mut Many<Rename>, path: &MailPath, flags: Flags) -> Result<(), NoMemory>
    requires { max_path_bytes < length (renamed path.now flags) }
    ensures { OnOk result (plan.new ≡ plan.old ++ rename_to path.now (renamed path.now flags)) }
{
    let _ = flags;
    let _ = path.text();
    let from = path.copy()?;
    plan.push(Rename { from, to: None })
}
