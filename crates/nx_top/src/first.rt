//! The path of one program from its text to its report. The crates from C to the kernel will take its place.

pub mod boot;
pub mod build;
pub mod compile;
pub mod guest;
pub mod inputs;
pub mod laws;
pub mod layout;
pub mod program;
pub mod run_program;
pub mod table_gates;
pub mod tokens;
pub mod view_bytes;
