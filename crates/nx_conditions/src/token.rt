use sqlite_items::Items;

/// How two values are compared.
#[derive(Clone, Copy, Debug, PartialEq, Eq)]
pub enum Comparison {
    /// `==`
    Equal,
    /// `!=`
    NotEqual,
    /// `<`
    Less,
    /// `<=`
    AtMost,
    /// `>`
    Greater,
    /// `>=`
    AtLeast,
}

/// A token of a condition.
#[derive(Debug, Drop)]
pub enum Token {
    /// `||`
    Or,
    /// `&&`
    And,
    /// A mark of a comparison.
    Compare(Comparison),
    /// `!`
    Not,
    /// The word `defined`.
    Defined,
    /// `(`
    Open,
    /// `)`
    Close,
    /// Letters, digits and `_` that are none of the others.
    Name(Items<u8>),
    /// Decimal digits, or `0x` and hexadecimal digits.
    Number(u64),
    /// After the last byte.
    End,
}
