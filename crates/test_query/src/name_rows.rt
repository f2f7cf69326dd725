//! Rows on the names of files, for `answers`: the flags in them, what they tell of tags, and how tags rename them.

use nm_base::{MailPath, Many, Tag, Tags};
use nm_flags::{Rename, rename_plan, tags_from_names};
use nm_name::{Flags, NameError, parse_name, with_flags};
use rows::{Lines, Row, RowError, named, path_of, tags_of, words_of};
use std::alloc::Global;

#[derive(Clone, Copy)]
enum Flag {
    Draft,
    Flagged,
    Passed,
    Replied,
    Seen,
    Trashed,
}

const FLAGS: [(&[u8], Flag); 6] = [
    (b"draft", Flag::Draft),
    (b"flagged", Flag::Flagged),
    (b"passed", Flag::Passed),
    (b"replied", Flag::Replied),
    (b"seen", Flag::Seen),
    (b"trashed", Flag::Trashed),
];

/// The flags of the path.
pub fn push_flags_of(alloc: Global, lines: &mut Lines, path: &[u8]) -> Result<(), RowError> {
    let path = path_of(alloc, path)?;
    lines.begin();
    push_flags(lines, parse_name(&path));
    Ok(())
}

fn push_flags(lines: &mut Lines, flags: Flags) {
    let any = push_flag(lines, flags.draft, b"draft", false);
    let any = push_flag(lines, flags.flagged, b"flagged", any);
    let any = push_flag(lines, flags.passed, b"passed", any);
    let any = push_flag(lines, flags.replied, b"replied", any);
    let any = push_flag(lines, flags.seen, b"seen", any);
    let any = push_flag(lines, flags.trashed, b"trashed", any);
    if !any {
        lines.push(b"none");
    }
}

/// Goes on with the flag where it is set, and answers whether any is there by now.
fn push_flag(lines: &mut Lines, is_set: bool, word: &[u8], any: bool) -> bool {
    if !is_set {
        return any;
    }
    if any {
        lines.push(b" ");
    }
    lines.push(word);
    true
}

/// The path, renamed to carry the flags after `?`.
pub fn push_target(
    alloc: Global,
    lines: &mut Lines,
    row: &Row<'_>,
    path: &[u8],
) -> Result<(), RowError> {
    let flags = flags_of(alloc, row)?;
    let path = path_of(alloc, path)?;
    match with_flags(alloc, &path, flags) {
        Ok(target) => lines.line(target.text().as_bytes()),
        Err(NameError::Long) => lines.line(b"too long"),
        Err(NameError::NoMemory) => return Err(RowError::NoMemory),
    }
    Ok(())
}

/// The flags after `?`.
fn flags_of(alloc: Global, row: &Row<'_>) -> Result<Flags, RowError> {
    let asked = row.text(alloc, b"?")?;
    let mut flags = Flags {
        draft: false,
        flagged: false,
        passed: false,
        replied: false,
        seen: false,
        trashed: false,
    };
    set_flags(alloc, &mut flags, asked.as_slice())?;
    Ok(flags)
}

fn set_flags(alloc: Global, flags: &mut Flags, asked: &[u8]) -> Result<(), RowError> {
    let words = words_of(alloc, asked)?;
    'words: for word in words.as_slice() {
        set_flag(flags, named(&FLAGS, word.as_bytes())?);
    }
    Ok(())
}

fn set_flag(flags: &mut Flags, flag: Flag) {
    match flag {
        Flag::Draft => flags.draft = true,
        Flag::Flagged => flags.flagged = true,
        Flag::Passed => flags.passed = true,
        Flag::Replied => flags.replied = true,
        Flag::Seen => flags.seen = true,
        Flag::Trashed => flags.trashed = true,
    }
}

/// Of a message with the tags after `?` and with files at the lines `|`: the tags that it then has, or what has to be renamed.
pub fn push_message(
    alloc: Global,
    lines: &mut Lines,
    row: &Row<'_>,
    renames: bool,
) -> Result<(), RowError> {
    let tags = asked_tags(alloc, row)?;
    let paths = paths_of(alloc, row)?;
    if renames {
        return push_plan(alloc, lines, &tags, &paths);
    }
    push_tags_after(alloc, lines, &tags, &paths)
}

fn asked_tags(alloc: Global, row: &Row<'_>) -> Result<Tags, RowError> {
    let asked = row.text(alloc, b"?")?;
    tags_of(alloc, asked.as_slice())
}

fn paths_of(alloc: Global, row: &Row<'_>) -> Result<Many<MailPath>, RowError> {
    let mut paths = Many::new(alloc);
    'lines: for line in row.lines.as_slice() {
        if line.mark == b"|".as_slice() {
            push_path(alloc, &mut paths, line.bytes.as_slice())?;
        }
    }
    Ok(paths)
}

fn push_path(alloc: Global, paths: &mut Many<MailPath>, path: &[u8]) -> Result<(), RowError> {
    Ok(paths.push(path_of(alloc, path)?)?)
}

fn push_tags_after(
    alloc: Global,
    lines: &mut Lines,
    tags: &Tags,
    paths: &Many<MailPath>,
) -> Result<(), RowError> {
    let after = tags_from_names(alloc, tags, paths)?;
    let after = after.to_list(alloc)?;
    push_tags(lines, after.as_slice());
    Ok(())
}

/// A line each.
fn push_tags(lines: &mut Lines, tags: &[Tag]) {
    if tags.is_empty() {
        lines.line(b"no tag");
    }
    'tags: for tag in tags {
        lines.line(tag.text().as_bytes());
    }
}

fn push_plan(
    alloc: Global,
    lines: &mut Lines,
    tags: &Tags,
    paths: &Many<MailPath>,
) -> Result<(), RowError> {
    let plan = rename_plan(alloc, tags, paths)?;
    push_renames(lines, plan.as_slice());
    Ok(())
}

/// A line each: `FROM to TO`, or `FROM too long`.
fn push_renames(lines: &mut Lines, renames: &[Rename]) {
    if renames.is_empty() {
        lines.line(b"nothing");
    }
    'renames: for rename in renames {
        lines.line(rename.from.text().as_bytes());
        push_new_path(lines, &rename.to);
    }
}

fn push_new_path(lines: &mut Lines, to: &Option<MailPath>) {
    match to {
        Some(to) => {
            lines.push(b" to ");
            lines.push(to.text().as_bytes());
        }
        None => lines.push(b" too long"),
    }
}
