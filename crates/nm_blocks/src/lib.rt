//! Searching: the coded blocks in which the hits of a word are kept. `pack` writes a block, `RunWriter`
//! one block after the other, hit by hit, and `Unpack` reads them. Blocks are joined by copying their bytes.
#![tactic(auto)]

mod block;
mod draft;
mod hit;
mod laws;
mod number;
mod run_writer;
mod unpack;

pub use block::{pack, pack_into, pack_run};
pub use hit::Hit;
pub use laws::{
    a_block_is_read_again, a_block_is_short, blocks_are_joined_by_their_bytes,
    equal_blocks_are_of_equal_hits, hits_in_bytes, rising_hits_are_joined_and_cut,
    whole_blocks_are_read,
};
pub use run_writer::RunWriter;
pub use unpack::Unpack;
