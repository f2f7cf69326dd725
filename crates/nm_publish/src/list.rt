//! The list of what was published, which the proofs alone hold: a word says how many commits it has, and tokens
//! without bytes say how far it was seen. `publication` makes it longer.

use crate::event::Event;
use logbook::{Gain, Opening, Plain, Play, Rule, Seen, Word};
use nm_state::Snapshot;
use std::alloc::Global;
use std::snapshot;
use std::sync::Arc;

/// A beginning of the list that was reached.
pub type Token = Seen<Event, u64, Law>;

/// How many commits the list has.
pub type Head = Word<Event, u64, Law>;

/// What holds of the list.
pub struct Law;

impl Rule<Event, u64> for Law {
    ghost use Rattle.std.specs.Prelude.{[]};
    ghost use base.Fml.{ftrue};
    ghost use Rattle.nm_publish.specs.List.{IsCounted};

    ghost holds = { IsCounted };

    ghost first = { [] };

    ghost hinted = { λ n log. Unit {0} };

    ghost shows = { λ log. [] };

    ghost keeps = { λ names log. ftrue };

    ghost moves = { λ ask before after answer. Unit {0} };
}

/// Callers trade nothing.
pub struct Nothing;

impl Gain<Event, u64> for Nothing {
    ghost use base.Fml.{ftrue};

    ghost after = { λ names about answer. ftrue };
}

/// A list that begins with this snapshot.
pub struct Begins;

impl Opening<Arc<Snapshot, Global>, Event> for Begins {
    ghost use Rattle.std.specs.Prelude.{[], ◌∷◌};
    ghost use Rattle.std.specs.Arc.{arc_value};
    ghost use Rattle.nm_publish.specs.declared.event.Event.TheVariants.{Opens};

    ghost log = { λ count first. Opens (arc_value first) ∷ [] };
}

/// The step that adds a commit.
pub struct Add;

impl Play<Event, u64> for Add {
    ghost use Rattle.nm_publish.specs.List.{Adds};

    ghost then = { Adds };
}

impl Plain<snapshot::Snapshot<nm_commit::Commit>, Event, u64> for Add {
    ghost use Rattle.std.specs.Prelude.{None};
    ghost use Rattle.nm_publish.specs.declared.event.Event.TheVariants as event;

    ghost ask = { λ commit. event.Adds commit.value };

    ghost state = { λ commit. None };
}
