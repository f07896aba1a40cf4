use nx_base::Bytes;
use nx_checked::{CheckedFunction, GlobalArray, GlobalScalar};
use nx_ctype::{Names, Used};
use sqlite_items::Items;

/// What is known after some of a file's declarations and definitions.
#[derive(Drop)]
pub struct Known {
    /// What names stand for.
    pub names: Names,
    /// The names of the functions so far.
    pub defined: Items<Bytes>,
    /// The variables so far that are no arrays.
    pub scalars: Items<GlobalScalar>,
    /// The arrays so far.
    pub arrays: Items<GlobalArray>,
    /// How many bytes the variables so far take: 4 for each that is no array, and those of each
    /// array rounded up to 4.
    pub bytes: u32,
    /// The functions so far.
    pub functions: Items<CheckedFunction>,
    /// The texts and the calls that they use.
    pub used: Used,
}
