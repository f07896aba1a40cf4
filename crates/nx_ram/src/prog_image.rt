use nx_base::{Bytes, Text};

/// A program's part of an image. Addresses are those that the program sees, in bytes.
#[derive(Debug, Drop)]
pub struct ProgImage {
    /// The program's name, as the shell runs it.
    pub name: Text,
    /// Where the text stands.
    pub text_at: u32,
    /// Its bytes: stubs, proxies, functions and literals.
    pub text: Bytes,
    /// Where the data stand.
    pub data_at: u32,
    /// The first contents of the data.
    pub init: Bytes,
    /// The entry of the main function.
    pub main: u32,
    /// The stub that ends the group with the value of a0.
    pub end_group: u32,
    /// The stub that ends the thread with the value of a0.
    pub end_thread: u32,
}
