//! The UTF-8 text of all crates, seen in contracts as its bytes: `nm_text` makes it of bytes, and a `Tag` or a
//! `MessageId` is one.

ghost use Rattle.std.specs.Prelude.{◌≡◌, ◌≤◌, IfOk, Some, [], length, refl, string_bytes};
ghost use Rattle.std.specs.Cmp.{partial_equiv_from_equiv};
ghost use Rattle.std.specs.Cmp.Lexicographic.{nat_list_cmp_total, nat_list_eq_equiv, pointwise, slice_cmp, texts_po, texts_ties};
ghost use Rattle.std.specs.Ordering.{nat_cmp};
ghost use Rattle.std.specs.Prelude.{nat_eq};

use crate::short_text::ShortText;
use crate::{Copies, NoMemory};
use std::alloc::{AllocError, Global};
use std::cmp::Ordering;
use std::fmt;
use std::fmt::{Debug, Formatter, Write};
use std::marker::Model;
use std::sync::{Arc, ArcStr};

/// UTF-8 text, seen as its bytes. A copy takes no memory: it shares a long text's bytes.
pub struct Text {
    stored: Stored,
}

/// The most bytes of a text that is in the value: with them a text takes 16 bytes.
const MAX_SHORT: usize = 14;

/// The most bytes of a text that is in one shared block, which then takes 48 bytes; a longer one takes two blocks.
const MAX_MIDDLE: usize = 31;

/// Where the bytes are.
pub(crate) enum Stored {
    Short(ShortText<14>),
    Middle(Arc<ShortText<31>, Global>),
    Long(ArcStr),
}

impl Model for Text {
    ghost use Rattle.std.specs.Prelude.{List, ℕ};

    ghost Value = { List ℕ };

    ghost use Rattle.nm_base.specs.Stored.{stored_bytes};

    ghost view = { λ t. stored_bytes t.stored };
}

impl Drop for Text {
    fn drop(self) {
        let Text { stored: _ } = self;
    }
}

impl Drop for Stored {
    fn drop(self) {
        match self {
            Stored::Short(_) => {}
            Stored::Middle(_) => {}
            Stored::Long(_) => {}
        }
    }
}

impl Text {
    /// The empty text, which takes no memory.
    pub fn new(_: Global) -> Text
        ensures { result ≡ [] }
    {
        Text {
            stored: Stored::Short(ShortText::empty()),
        }
    }

    pub fn of(alloc: Global, s: &str) -> Result<Text, NoMemory>
        ensures { IfOk result (λ text. text ≡ s.now) }
    {
        if s.len() <= MAX_SHORT {
            return Ok(short(s));
        }
        if s.len() <= MAX_MIDDLE {
            return middle(alloc, s);
        }
        Ok(Text {
            stored: Stored::Long(ArcStr::from_str(alloc, s)?),
        })
    }

    pub fn from_string(string: String) -> Result<Text, NoMemory>
        ensures { IfOk result (λ text. text ≡ string_bytes string) }
    {
        if string.len() <= MAX_SHORT {
            return Ok(short(string.as_str()));
        }
        if string.len() <= MAX_MIDDLE {
            return middle(*string.allocator(), string.as_str());
        }
        Ok(Text {
            stored: Stored::Long(ArcStr::from_string(string)?),
        })
    }

    pub fn as_str(&self) -> &str
        ensures { result.now ≡ self.now }
    {
        match &self.stored {
            Stored::Short(short) => short.as_str(),
            Stored::Middle(middle) => middle.as_str(),
            Stored::Long(long) => long.as_str(),
        }
    }

    pub fn as_bytes(&self) -> &[u8]
        ensures { result.now ≡ self.now }
    {
        match &self.stored {
            Stored::Short(short) => short.as_bytes(),
            Stored::Middle(middle) => middle.as_bytes(),
            Stored::Long(long) => long.as_str().as_bytes(),
        }
    }
}

fn short(s: &str) -> Text
    requires { length s.now ≤ 14 }
    ensures { result ≡ s.now }
{
    Text {
        stored: Stored::Short(ShortText::of(s)),
    }
}

fn middle(alloc: Global, s: &str) -> Result<Text, NoMemory>
    requires { length s.now ≤ 31 }
    ensures { IfOk result (λ text. text ≡ s.now) }
{
    Ok(Text {
        stored: Stored::Middle(Arc::new(alloc, ShortText::of(s))?),
    })
}

impl Clone for Text {
    ghost is_clone = { λ text copy. copy ≡ text };

    fn clone(&self) -> Result<Text, AllocError> {
        match &self.stored {
            Stored::Short(short) => Ok(Text {
                stored: Stored::Short(*short),
            }),
            Stored::Middle(middle) => {
                let middle = Arc::try_clone(middle)?;
                Ok(Text {
                    stored: Stored::Middle(middle),
                })
            }
            Stored::Long(long) => {
                let long = long.clone()?;
                Ok(Text {
                    stored: Stored::Long(long),
                })
            }
        }
    }
}

impl Debug for Text {
    fn fmt<W: Write>(&self, f: &mut Formatter<W>) -> fmt::Result {
        Debug::fmt(&self.as_str(), f)
    }
}

impl Copies for Text {
    fn copy(&self) -> Result<Text, NoMemory> {
        Ok(self.clone()?)
    }
}

impl PartialEq for Text {
    ghost eq = { pointwise nat_eq };

    ghost laws = { partial_equiv_from_equiv nat_list_eq_equiv };

    fn eq(&self, other: &Text) -> bool {
        self.as_str() == other.as_str()
    }
}

impl Eq for Text {
    ghost laws = { nat_list_eq_equiv };
}

impl PartialOrd for Text {
    ghost partial_cmp = { λ x y. Some (slice_cmp nat_cmp x y) };

    ghost laws = { texts_po };

    fn partial_cmp(&self, other: &Text) -> Option<Ordering> {
        Some(self.cmp(other))
    }
}

impl Ord for Text {
    ghost cmp = { slice_cmp nat_cmp };

    ghost total = { nat_list_cmp_total };

    ghost matches_partial_cmp = { λ x y. refl };

    ghost matches_eq = { texts_ties };

    fn cmp(&self, other: &Text) -> Ordering {
        self.as_str().cmp(other.as_str())
    }
}
