//! A hit: one place of a word. `block` packs hits, and `unpack` gives them.

ghost use Rattle.std.specs.Prelude.{◌≡◌};
ghost use Rattle.nm_blocks.specs.Gaps.{gaps, after};

/// A place of a word: the document, the list of the document, and the place in the list, each from 0. Hits are in the
/// order of their documents, then of their lists, then of their places.
#[derive(Clone, Copy)]
pub struct Hit {
    pub doc: u32,
    pub list: u32,
    pub place: u32,
}

/// What a block's first hit is written after.
pub const ORIGIN: Hit = Hit {
    doc: 0,
    list: 0,
    place: 0,
};

/// The three numbers that a hit is written as.
pub fn gaps_of(before: Hit, hit: Hit) -> Hit
    ensures { result ≡ gaps before hit }
{
    if hit.doc != before.doc {
        return Hit {
            doc: hit.doc.saturating_sub(before.doc),
            list: hit.list,
            place: hit.place,
        };
    }
    if hit.list != before.list {
        return Hit {
            doc: 0,
            list: hit.list.saturating_sub(before.list),
            place: hit.place,
        };
    }
    Hit {
        doc: 0,
        list: 0,
        place: hit.place.saturating_sub(before.place),
    }
}

/// The hit that three numbers represent.
pub fn hit_after(before: Hit, gap: Hit) -> Hit
    ensures { result ≡ after before gap }
{
    if gap.doc != 0 {
        return Hit {
            doc: before.doc.saturating_add(gap.doc),
            list: gap.list,
            place: gap.place,
        };
    }
    if gap.list != 0 {
        return Hit {
            doc: before.doc,
            list: before.list.saturating_add(gap.list),
            place: gap.place,
        };
    }
    Hit {
        doc: before.doc,
        list: before.list,
        place: before.place.saturating_add(gap.place),
    }
}
