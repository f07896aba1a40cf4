ghost use Rattle.std.specs.Prelude.{◌≡◌};
ghost use Rattle.nx_calls.specs.FaultTexts.{kind_text};

use thiserror::Error;

/// What is wrong with a row of a call table.
#[derive(Clone, Copy, Debug, PartialEq, Eq, Error)]
#[error("{text}", text = self.text())]
pub enum CallsKind {
    /// Fewer than four fields.
    FewFields,
    /// The name is no C name of 1 to 64 bytes.
    BadName,
    /// The condition has no reading, or more than 1,024 bytes.
    BadCondition,
    /// A type with two bars or more.
    UnionType,
    /// A type, or a part of one, that is empty.
    BadType,
    /// More than six parameters.
    TooManyParameters,
    /// A row of a true condition before it has the name.
    NameTwice,
    /// The kernel's call of the name has other kinds, or the return type is a pointer.
    Signature,
    /// More than 512 rows of a true condition.
    Limit,
}

impl CallsKind {
    /// The words by which a refusal names it.
    pub fn text(self) -> &'static str
        ensures { result.now ≡ kind_text self }
    {
        match self {
            CallsKind::FewFields => "few fields",
            CallsKind::BadName => "bad name",
            CallsKind::BadCondition => "bad condition",
            CallsKind::UnionType => "union type",
            CallsKind::BadType => "bad type",
            CallsKind::TooManyParameters => "too many parameters",
            CallsKind::NameTwice => "name twice",
            CallsKind::Signature => "signature",
            CallsKind::Limit => "limit",
        }
    }
}

/// Why there is no call table.
#[derive(Clone, Copy, Debug, PartialEq, Eq, Error)]
pub enum CallsFault {
    /// The table is refused at a record, counted from 1.
    #[error("{row}: {kind}")]
    Text { row: u32, kind: CallsKind },
    /// There is no memory for it.
    #[error("out of memory")]
    Memory,
}

/// Why a row was not read.
#[derive(Clone, Copy, Debug, Drop)]
pub enum RowStop {
    Memory,
    Fault(CallsKind),
}
