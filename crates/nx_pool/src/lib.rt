//! A store of blocks of 64 bytes: chains of blocks, each of which is a list of bytes to its holder.
#![tactic(auto)]

mod block_store;
mod chain;
mod laws;
mod payload;
mod pool_index;
mod vec_blocks;

pub use block_store::{BlockStore, NoBlocks};
pub use chain::Chain;
pub use laws::{a_write_changes_its_bytes_alone, no_block_is_lost};
pub use vec_blocks::VecBlocks;

#[cfg(test)]
mod tests;
