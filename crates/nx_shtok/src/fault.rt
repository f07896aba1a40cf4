ghost use Rattle.std.specs.Prelude.{◌≡◌};
ghost use Rattle.nx_shtok.specs.FaultTexts.{kind_text};
ghost use Rattle.nx_shtok.specs.declared.fault.ShFault.TheVariants.{Memory};

use std::alloc::AllocError;
use thiserror::Error;

/// What is wrong with a script.
#[derive(Clone, Copy, Debug, PartialEq, Eq, Error)]
#[error("{text}", text = self.text())]
pub enum ShKind {
    /// A byte below 32 that is no tab, newline or carriage return, or 127.
    BadByte,
    /// A quote that doesn't end on its line, or a backslash as the last byte.
    OpenQuote,
    /// A token that no script has after the tokens before it.
    Syntax,
    /// More nesting, or more words in a command, than there may be.
    Limit,
}

impl ShKind {
    /// The words by which a refusal names it.
    pub fn text(self) -> &'static str
        ensures { result.now ≡ kind_text self }
    {
        match self {
            ShKind::BadByte => "bad byte",
            ShKind::OpenQuote => "open quote",
            ShKind::Syntax => "syntax",
            ShKind::Limit => "limit",
        }
    }
}

/// Why a script is refused.
#[derive(Clone, Copy, Debug, PartialEq, Eq, Error)]
pub enum ShFault {
    /// The text is refused at a line, counted from 1.
    #[error("{line}: {kind}")]
    Text { line: u32, kind: ShKind },
    /// There was no memory.
    #[error("no memory")]
    Memory,
}

impl From<AllocError> for ShFault {
    ghost from_gives = { λ _ e. e ≡ Memory };

    fn from(_: AllocError) -> Self {
        ShFault::Memory
    }
}
