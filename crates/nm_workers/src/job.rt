//! A job: what is done with one input, whoever does it. A `worker` does it.

ghost use Rattle.std.specs.Prelude.{IfOk};

use nm_base::NoMemory;

/// What is done with an input. Several threads may run it at once.
pub trait Job {
    type In;

    type Out: Drop;

    /// Which results an input may have.
    ghost gives: { Self → Self.In → Self.Out → Type 0 };

    fn run(&self, input: &Self::In) -> Result<Self::Out, NoMemory>
        ensures { IfOk result (λ out. gives self.now input.now out) };
}
