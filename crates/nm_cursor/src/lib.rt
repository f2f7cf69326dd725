//! Searching: cursors over rising lists of document numbers, and what two of them make together.
//! A cursor is seen as the list that is left. None takes memory, and each leaps over what it needn't look at.
#![tactic(auto)]

mod both;
mod collection;
mod cursor;
mod either;
mod laws;
mod one;
mod peek;
mod rising;
mod without;

pub use both::Both;
pub use collection::collect;
pub use cursor::Cursor;
pub use either::Either;
pub use laws::set_laws;
pub use one::One;
pub use rising::Rising;
pub use without::Without;
