ghost use Rattle.std.specs.Prelude.{◌≡◌};
ghost use Rattle.nx_cexpr.specs.declared.stop.ParseStop.TheVariants.{Memory};

use nx_ctree::Signed;
use nx_grammar::Kind;
use std::alloc::AllocError;

/// Why nothing was read.
#[derive(Debug, Drop)]
pub enum ParseStop<'a> {
    /// Out of memory.
    Memory,
    /// What is wrong with a token, and the tokens from it on.
    Fault(Kind, &'a [Signed<'a>]),
}

impl From<AllocError> for ParseStop<'_> {
    ghost from_gives = { λ _ e. e ≡ Memory };

    fn from(_: AllocError) -> Self {
        ParseStop::Memory
    }
}
