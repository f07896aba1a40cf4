ghost use Rattle.std.specs.Prelude.{◌≡◌};
ghost use Rattle.nx_shtree.specs.declared.stop.ParseStop.TheVariants.{Memory};

use nx_grammar::Kind;
use nx_shtok::Token;
use std::alloc::AllocError;

/// Why nothing was read.
#[derive(Clone, Copy, Debug)]
pub(crate) enum ParseStop<'a> {
    /// Out of memory.
    Memory,
    /// What is wrong with a token, and the tokens from it on.
    Fault(Kind, &'a [Token]),
}

impl From<AllocError> for ParseStop<'_> {
    ghost from_gives = { λ _ e. e ≡ Memory };

    fn from(_: AllocError) -> Self {
        ParseStop::Memory
    }
}
