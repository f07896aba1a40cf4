use sqlite_items::Items;

/// A part of a word.
#[derive(Debug, Drop)]
pub enum Part {
    /// A byte that stands for itself.
    Byte(u8),
    /// The status of the last command, in decimal digits: `$?`.
    Status,
    /// The value of a name of the environment: `$NAME` or `${NAME}`.
    Name(Items<u8>),
}
