//! Two rising lists of paths, side by side, for `comparison`: a listing and an index are compared in one pass.

ghost use Rattle.std.specs.Prelude.{◌≡◌, not, IfOk};
ghost use Rattle.std.specs.List.{filter};
ghost use Rattle.nm_base.specs.Order.{IsSorted, has_text};
ghost use Rattle.nm_sync.specs.Merge.{begins_with, from_on};

use nm_base::{Copies, MailPath, Many, NoMemory};
use std::alloc::Global;
use std::cmp::Ordering;

/// The paths of a rising list that another rising list lacks. Both are passed once.
pub(crate) fn only_in(
    alloc: Global,
    paths: &[MailPath],
    others: &[MailPath],
) -> Result<Many<MailPath>, NoMemory>
    requires paths { IsSorted paths.now }
    requires others { IsSorted others.now }
    ensures { IfOk result (λ only. only ≡ filter (λ path. not (has_text others.now path)) paths.now) }
{
    let mut only = Many::new(alloc);
    let mut rest = others;
    'paths: for path in paths {
        rest = from_on(rest, path);
        if !begins_with(rest, path) {
            only.push(path.copy()?)?;
        }
    }
    Ok(only)
}

/// What is in a rising list from a path on.
fn from_on<'a>(paths: &'a [MailPath], path: &MailPath) -> &'a [MailPath]
    ensures { result.now ≡ from_on path.now paths.now }
{
    let mut rest = paths;
    'paths: while let Some((first, more)) = rest.split_first() {
        match first.cmp(path) {
            Ordering::Less => rest = more,
            _ => return rest,
        }
    }
    rest
}

fn begins_with(paths: &[MailPath], path: &MailPath) -> bool
    ensures { result ≡ begins_with path.now paths.now }
{
    match paths.first() {
        Some(first) => first == path,
        None => false,
    }
}
