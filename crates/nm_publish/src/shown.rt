//! How far the list of what was published is known, to a `reader` and to the writer of `nm_writer`.

ghost use Rattle.std.specs.Prelude.{◌≡◌, ◌<◌, length, MatchBool};
ghost use Rattle.nm_publish.specs.List.{index_at};
ghost use Rattle.nm_publish.specs.Published.{GoesOn, index_of, published};

use crate::list::Token;
use nm_model_index::the_revision_counts_the_commits;
use std::marker::Model;

/// Names what was shown: the opening index and the commits after it. A contract sees these, of which it has no copy.
#[derive(Drop)]
pub struct Shown {
    token: Token,
    revision: u64,
}

impl Model for Shown {
    ghost use Rattle.std.specs.Prelude.{◌≡◌, ◌<◌, length};
    ghost use Rattle.nm_publish.specs.List.{index_at};
    ghost use Rattle.nm_publish.specs.Published.{Published, published};

    ghost Value = { Published };

    ghost view = { λ s. published s.token.book s.token.log };

    ghost invariant = { λ s. (0 < length s.token.log) × (s.revision ≡ (index_at s.token.log).revision) };
}

impl Shown {
    /// Of a list that was begun, `revision` is that of the index after its commits.
    pub(crate) fn new(token: Token, revision: u64) -> Shown
        requires begun { 0 < length token.log }
        requires revision { revision ≡ (index_at token.log).revision }
        ensures { result ≡ published token.book token.log }
    {
        Shown { token, revision }
    }

    /// The revision of the index that was shown.
    pub fn revision(&self) -> u64
        ensures { result ≡ (index_of self.now).revision }
    {
        self.revision
    }

    /// Says which of two that were shown by one `Shower` the other goes on from.
    pub(crate) fn is_before(&self, other: &Shown) -> bool
        requires { other.now.book ≡ self.now.book }
        ensures { MatchBool result (GoesOn self.now other.now) (GoesOn other.now self.now) }
    {
        the_revision_counts_the_commits();
        let mut both = self.token.again();
        both.learn(&other.token);
        self.revision <= other.revision
    }
}
