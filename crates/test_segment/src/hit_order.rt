//! Whether hits are in order, as packing asks: `block_rows` tests it.

ghost use Rattle.std.specs.Prelude.{◌≡◌};
ghost use Rattle.nm_blocks.specs.Hits.{is_before, is_rising, rise_after};

use nm_blocks::Hit;

/// Whether each hit comes before the next one.
pub fn are_rising(hits: &[Hit]) -> bool
    ensures { result ≡ is_rising hits.now }
{
    match hits.split_first() {
        None => true,
        Some((hit, rest)) => rise_after(hit, rest),
    }
}

fn rise_after(before: &Hit, hits: &[Hit]) -> bool
    ensures { result ≡ rise_after before.now hits.now }
{
    match hits.split_first() {
        None => true,
        Some((hit, rest)) => is_before(before, hit) && rise_after(hit, rest),
    }
}

fn is_before(a: &Hit, b: &Hit) -> bool
    ensures { result ≡ is_before a.now b.now }
{
    a.doc < b.doc
        || (a.doc == b.doc && (a.list < b.list || (a.list == b.list && a.place < b.place)))
}
