//! Where the next message of a walk is looked for first, for `nm_render` and the calls of `snapshot` that take a hint: messages by their dates
//! mostly rise or fall as they came.

/// The places after the last message that was found, and after the one before it. Whatever is guessed, the same is found.
#[derive(Clone, Copy)]
pub struct SlotGuess {
    before: u64,
    last: u64,
}

impl SlotGuess {
    /// No message was found yet; the first guess is the first place.
    pub fn new() -> SlotGuess {
        SlotGuess { before: 1, last: 1 }
    }

    /// As far from the last message as that is from the one before it.
    pub fn hint(self) -> u64 {
        let step = self.last.wrapping_sub(self.before);
        self.last.wrapping_sub(1).wrapping_add(step)
    }

    /// The same walk with one message more, which comes before this place.
    pub fn with(self, behind: u64) -> SlotGuess {
        SlotGuess {
            before: self.last,
            last: behind,
        }
    }
}
