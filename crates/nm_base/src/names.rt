//! What may be wrong with a name, for the constructors of `Tag`, `MessageId`, `MailPath` and `Word`.

ghost use Rattle.std.specs.Prelude.{◌≡◌};
ghost use Rattle.nm_base.specs.Bounds.{fits_length};

use thiserror::Error;

/// What is wrong with a text that was to become a name, a tag, a word or a path.
#[derive(Clone, Copy, Debug, Error)]
pub enum BadValue {
    /// It is empty or too long.
    #[error("length")]
    Length,
    /// It holds a byte, or a component, that is not allowed.
    #[error("byte")]
    Byte,
}

pub(crate) fn fits(bytes: &[u8], max: usize) -> bool
    ensures { result ≡ fits_length max bytes.now }
{
    !bytes.is_empty() && bytes.len() <= max
}
