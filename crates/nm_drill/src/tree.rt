//! The store of a drill, of which `test_query` tells the files.

ghost use Rattle.std.specs.Prelude.{◌≡◌, ◌∷◌, [], ◌≤◌, codes, IfOk};
ghost use Rattle.nm_drill.specs.Drill.{drill_file, drill_files, drill_path, drill_tree};

use crate::digits::path_text;
use crate::mail::drill_mail;
use nm_base::{MailPath, Many, NoMemory, Text};
use nm_maildir::StillTree;
use std::alloc::Global;

/// The store of this many mails, at most 20,000, none of whose calls fails.
pub fn drill_tree(alloc: Global, count: u32) -> Result<StillTree, NoMemory>
    requires least { 1 ≤ count }
    requires most { count ≤ 20000 }
    ensures { IfOk result (λ tree. tree ≡ drill_tree count) }
{
    let dirs = folders(alloc)?;
    let files = drill_files(alloc, count)?;
    Ok(StillTree::new(alloc, dirs, files, Many::new(alloc)))
}

fn folders(alloc: Global) -> Result<Many<Text>, NoMemory>
    ensures { IfOk result (λ dirs. dirs ≡ codes "new" ∷ codes "cur" ∷ []) }
{
    let mut dirs = Many::new(alloc);
    dirs.push(Text::of(alloc, "new")?)?;
    dirs.push(Text::of(alloc, "cur")?)?;
    Ok(dirs)
}

fn drill_files(alloc: Global, count: u32) -> Result<Many<(MailPath, Many<u8>)>, NoMemory>
    requires { count ≤ 20000 }
    ensures { IfOk result (λ files. files ≡ drill_files count) }
{
    let mut files = Many::new(alloc);
    'mails: for before in 0..count {
        files.push(drill_file(alloc, before + 1)?)?;
    }
    Ok(files)
}

fn drill_file(alloc: Global, number: u32) -> Result<(MailPath, Many<u8>), NoMemory>
    requires least { 1 ≤ number }
    requires most { number ≤ 20000 }
    ensures { IfOk result (λ file. file ≡ drill_file number) }
{
    let path = drill_path(alloc, number)?;
    let mail = drill_mail(alloc, number)?;
    Ok((path, mail))
}

/// Where a mail is.
fn drill_path(alloc: Global, number: u32) -> Result<MailPath, NoMemory>
    requires { number ≤ 20000 }
    ensures { IfOk result (λ path. path ≡ drill_path number) }
{
    let text = Text::from_string(path_text(alloc, number)?)?;
    match MailPath::new(text) {
        Ok(path) => Ok(path),
        Err(_) => unreachable!(),
    }
}
