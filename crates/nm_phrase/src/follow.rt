//! Two hits compared by where the next word begins, and the ends that a hit may follow: `ends` looks so for the hit before.

ghost use Rattle.std.specs.Prelude.{◌≡◌, ◌<◌, true, false, length};
ghost use Rattle.std.specs.Bool.{OnTrue};
ghost use Rattle.nm_blocks.specs.Hits.{is_rising};
ghost use Rattle.nm_phrase.specs.Ends.{drop_before, ends_before, first_is_before, is_before_at, is_next};

use nm_blocks::Hit;

/// Says whether the place after the end comes before the hit.
fn ends_before(end: Hit, hit: Hit) -> bool
    ensures { result ≡ ends_before hit end }
{
    if end.doc != hit.doc {
        return end.doc < hit.doc;
    }
    if end.list != hit.list {
        return end.list < hit.list;
    }
    // The last place of 32 bits has one after it too.
    u64::from(end.place) + 1 < u64::from(hit.place)
}

/// Says whether the hit is at the place after the end.
fn is_next(end: Hit, hit: Hit) -> bool
    ensures { result ≡ is_next hit end }
{
    if end.doc != hit.doc || end.list != hit.list {
        return false;
    }
    u64::from(end.place) + 1 == u64::from(hit.place)
}

/// The ends without those in front after which the hit comes later. Most leaps are short, so it looks ever further.
pub(crate) fn drop_before(ends: &[Hit], hit: Hit) -> &[Hit]
    requires { is_rising ends.now ≡ true }
    ensures { result.now ≡ drop_before hit ends.now }
{
    let mut rest = ends;
    let mut width = 1_usize;
    'leaps: while is_before_at(rest, width - 1, hit) {
        rest = rest.split_at(width).1;
        width = width.saturating_add(width);
    }
    drop_within(rest, width - 1, hit)
}

/// The same, where the end at `limit` stays, or there is none.
fn drop_within(ends: &[Hit], limit: usize, hit: Hit) -> &[Hit]
    requires rising { is_rising ends.now ≡ true }
    requires limit { is_before_at hit ends.now limit ≡ false }
    ensures { result.now ≡ drop_before hit ends.now }
{
    let mut rest = ends;
    let mut width = limit;
    'halves: while width > 0 {
        let middle = width / 2;
        if is_before_at(rest, middle, hit) {
            rest = rest.split_at(middle + 1).1;
            width -= middle + 1;
        } else {
            width = middle;
        }
    }
    rest
}

/// Says whether there is an end at this place, and the place after it comes before the hit.
fn is_before_at(ends: &[Hit], at: usize, hit: Hit) -> bool
    ensures before { result ≡ is_before_at hit ends.now at }
    ensures within { OnTrue result (at < length ends.now) }
{
    match ends.get(at) {
        None => false,
        Some(end) => ends_before(*end, hit),
    }
}

/// Says whether the hit is right after the first end.
pub(crate) fn first_is_before(ends: &[Hit], hit: Hit) -> bool
    ensures { result ≡ first_is_before hit ends.now }
{
    match ends.first() {
        None => false,
        Some(end) => is_next(*end, hit),
    }
}
