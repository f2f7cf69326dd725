//! What every output is to the code above: bytes go in, a flush hands them on, failures are counted. `nm_log` prints into one.

ghost use Rattle.nm_io.specs.Observed.{Flushes, ObservedSink, Puts};

use nm_base::Failed;

/// Where bytes go to.
pub trait Sink {
    /// The bytes taken so far, where they are known, how many bytes were put and how many of these it has handed on, and how
    /// often it has failed.
    ghost observed: { Self → ObservedSink };

    /// Appends the bytes. After `Failed` it has appended the first of them, perhaps none.
    fn put(&mut self, bytes: &[u8]) -> Result<(), Failed>
        ensures { Puts (observed self.old) (observed self.new) result bytes.now };

    /// Hands on what was put, where the sink kept some of it back.
    fn flush(&mut self) -> Result<(), Failed>
        ensures { Flushes (observed self.old) (observed self.new) result };
}
