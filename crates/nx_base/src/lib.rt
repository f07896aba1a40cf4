//! Words, bytes and small types that every layer speaks of: texts and byte lists, a cursor that
//! counts lines, the kinds of access and build, the causes of traps, the calls, the registers.
#![tactic(auto)]

mod access;
mod build;
mod bytes;
mod calls;
/// The causes of traps, by the RISC-V Privileged Architecture 1.12, table 3.6.
pub mod causes;
mod count;
mod cursor;
mod cutting;
mod errno;
mod laws;
mod operations;
mod out_of_memory;
mod pages;
mod regs;
mod text;
mod text_bytes;
mod words;

pub use access::{Access, Mode};
pub use build::Build;
pub use bytes::Bytes;
pub use calls::{FIRST_CALL, KCall, Kind, MOST_PARAMETERS, each_call_has_its_name};
pub use count::Count;
pub use cursor::Cursor;
pub use cutting::cut;
pub use errno::Errno;
pub use laws::{
    a_call_has_at_most_two_outputs, a_call_taken_from_a_view_is_well_formed,
    a_delivery_leaves_the_windows, a_store_changes_its_bytes_alone,
    a_store_changes_its_range_alone,
};
pub use operations::{AluOp, Cond};
pub use out_of_memory::OutOfMemory;
pub use pages::PAGE_BYTES;
pub use regs::Regs;
pub use text::Text;
pub use text_bytes::{
    are_word_bytes, digit_value, is_blank, is_identifier, is_line_blank, is_word_byte,
    is_word_start, number_of, trim_start, trimmed,
};
pub use words::{get_le32, put_le32};

#[cfg(test)]
mod tests;
