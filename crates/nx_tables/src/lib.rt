//! Page tables that are written into a RAM, and what their entries mean for the windows of a group.
#![tactic(auto)]

mod entries;
mod laws;

pub use entries::{map_page, map_table, table_of};
pub use laws::{
    a_group_stands_alone, a_store_shows_in_its_window, an_entry_adds_what_it_says,
    the_walk_gives_what_is_mapped,
};

#[cfg(test)]
mod tests;
