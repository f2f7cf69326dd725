//! What every input is to the code above: bytes come out, failures are counted. `whole_input` reads one to its end.

ghost use Rattle.nm_io.specs.Observed.{ObservedStream, Takes};

use nm_base::Failed;

/// Where bytes come from.
pub trait Source {
    /// The bytes left, where they are known, and how often it has failed.
    ghost observed: { Self → ObservedStream };

    /// Moves the first bytes left into `buf`, and answers how many.
    /// 0 for a buffer that is not empty is the end of the input.
    fn take(&mut self, buf: &mut [u8]) -> Result<usize, Failed>
        ensures { Takes (observed self.old) (observed self.new) result buf.new };
}
