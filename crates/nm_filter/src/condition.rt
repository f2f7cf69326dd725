//! What every stored condition is to `kept` and to the code above.

ghost use Rattle.std.specs.Prelude.{◌≡◌, ℕ, Bool};

/// A question about a document.
pub trait Condition: Drop {
    /// Whether it holds of the document with this number.
    ghost holds: { Self → ℕ → Bool };

    fn test(&self, doc: u32) -> bool
        ensures { result ≡ holds self.now doc };
}
