//! The rule over what is shown and over what each seat knows, for `seats`.

use crate::list::Token;
use crate::slot::Slot;
use atomic_table::{Join, Split};
use crossbeam_utils::rule::{Outcome, Protocol};

/// What a seat knows: a beginning of the list that it has seen or was told. No value of it is made.
pub struct Known {
    pub seen: Token,
}

/// What is shown is the index after the commits of its list, and each seat knows a beginning of that list.
pub struct Rule;

impl Protocol<Slot, Option<Known>> for Rule {
    ghost use Rattle.std.specs.Prelude.{None};
    ghost use Rattle.nm_publish.specs.Rule.{Holds};

    ghost holds = { Holds };

    ghost first = { None };
}

/// What a seat that enters or publishes knows afterwards: the list of what is then shown.
pub struct Sees;

impl Outcome<Slot, Option<Known>> for Sees {
    ghost use Rattle.nm_publish.specs.Rule.{IsObservation};

    ghost then = { IsObservation };
}

/// What the writer's seat knows, handed on to another.
pub struct Notes;

impl Split<Option<Known>> for Notes {
    ghost left = { λ known. known };

    ghost right = { λ known. known };
}

impl Join<Option<Known>> for Notes {
    ghost use Rattle.std.specs.Prelude.{None};

    ghost both = { λ _ told. told };

    ghost spent = { None };
}
