use nx_base::Bytes;

/// The value of a name.
#[derive(Debug, Drop)]
pub enum Value {
    /// `y`
    Yes,
    /// A number of magnitude below 2^64.
    Number(i128),
    /// What stands in double quotes, or the empty text after a bare `=`.
    Text(Bytes),
}

/// What a line says of a name: its value or none.
#[derive(Debug, Drop)]
pub struct Assignment {
    /// Letters, digits and `_`.
    pub name: Bytes,
    /// None where the line says that the name has no value.
    pub value: Option<Value>,
}

/// What the last line of a name says of it.
#[derive(Debug, Drop)]
pub struct Kept {
    /// That line, counted from 1.
    pub line: u32,
    /// None where the line says that the name has no value.
    pub value: Option<Value>,
}
