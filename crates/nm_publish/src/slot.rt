//! What readers find, in two copies, and what replaces it, for `seats` and `publisher`.

use crate::list::Token;
use left_right::Absorb;
use nm_model_index::Base;
use nm_state::Snapshot;
use std::alloc::{AllocError, Global};
use std::sync::Arc;

/// The snapshot that is shown, and the list that it represents.
#[derive(Drop)]
pub struct Slot {
    pub snap: Arc<Snapshot, Global>,
    pub seen: Token,
}

/// What is shown next.
#[derive(Drop)]
pub struct Next {
    pub snap: Arc<Snapshot, Global>,
    pub seen: Token,
}

/// What both copies have in common. No value of it is made.
pub struct Content {
    pub index: Base,
    pub seen: Token,
}

impl Absorb<Next> for Slot {
    ghost use Rattle.std.specs.Arc.{arc_value};

    type State = Content;

    ghost state = { λ slot. record { index = arc_value slot.snap; seen = slot.seen } };

    ghost applied = { λ _ next. record { index = arc_value next.snap; seen = next.seen } };

    fn absorb_first(&mut self, next: &Next, _other: &Slot) -> Result<(), AllocError> {
        let snap = Arc::try_clone(&next.snap)?;
        self.snap = snap;
        self.seen = next.seen.again();
        Ok(())
    }

    fn absorb_second(&mut self, next: Next, _other: &Slot) -> Result<(), Next> {
        let Next { snap, seen } = next;
        self.snap = snap;
        self.seen = seen;
        Ok(())
    }
}
