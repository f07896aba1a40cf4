//! Virtual memory of 32-bit pages: what the page tables in a RAM make of an address.
#![tactic(auto)]

mod entry;
mod laws;
mod sv32;

pub use laws::{
    a_page_is_translated_as_a_whole, a_walk_reads_its_tables_alone,
    an_address_is_translated_by_its_leaf,
};
pub use sv32::{PageFault, walk};

#[cfg(test)]
mod tests;
