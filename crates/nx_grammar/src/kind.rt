/// Why a token is refused.
#[derive(Clone, Copy, Debug, PartialEq, Eq)]
pub enum Kind {
    /// The grammar has no such token here.
    Syntax,
    /// The grammar has it, but deeper than the limit allows.
    Limit,
}
