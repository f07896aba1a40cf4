ghost use Rattle.std.specs.Prelude.{◌≡◌};
ghost use Rattle.nx_ctok.specs.FaultTexts.{kind_text};
ghost use Rattle.nx_ctok.specs.declared.fault.CFault.TheVariants.{Memory};

use std::alloc::AllocError;
use thiserror::Error;

/// What is wrong with a C program.
#[derive(Clone, Copy, Debug, PartialEq, Eq, Error)]
#[error("{text}", text = self.text())]
pub enum CKind {
    /// Bytes that begin no token, a comment without its end, or a line with `#` that is neither
    /// `#include` nor a `#define` of a name by a number or a character.
    BadToken,
    /// A number over 4,294,967,295.
    TooWide,
    /// A token that no program has after the tokens before it.
    Syntax,
    /// A name that nothing declares before it.
    UnknownName,
    /// A second declaration of a name.
    NameTwice,
    /// Operands or arguments of types that their operator or call doesn't take.
    TypeMismatch,
    /// More nesting, functions, parameters, globals or bytes than there may be.
    Limit,
    /// No main function.
    NoMain,
    /// A file of words in hexadecimal digits that isn't one.
    BadHex,
}

impl CKind {
    /// The words by which a refusal names it.
    pub fn text(self) -> &'static str
        ensures { result.now ≡ kind_text self }
    {
        match self {
            CKind::BadToken => "bad token",
            CKind::TooWide => "number too wide",
            CKind::Syntax => "syntax",
            CKind::UnknownName => "unknown name",
            CKind::NameTwice => "name twice",
            CKind::TypeMismatch => "type mismatch",
            CKind::Limit => "limit",
            CKind::NoMain => "no main",
            CKind::BadHex => "bad hex",
        }
    }
}

/// Why a C program is refused.
#[derive(Clone, Copy, Debug, PartialEq, Eq, Error)]
pub enum CFault {
    /// The text is refused at a line, counted from 1. Line 0 stands for the whole text.
    #[error("{line}: {kind}")]
    Text { line: u32, kind: CKind },
    /// There was no memory.
    #[error("no memory")]
    Memory,
}

impl From<AllocError> for CFault {
    ghost from_gives = { λ _ e. e ≡ Memory };

    fn from(_: AllocError) -> Self {
        CFault::Memory
    }
}
