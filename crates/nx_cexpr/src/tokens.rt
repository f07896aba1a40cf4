ghost use Rattle.std.specs.Prelude.{◌≡◌, ◌<◌, ◌≤◌, length, IfOk, IfSome, IsTrue, ◌&&◌, nat_lt, suc};
ghost use Rattle.std.specs.Option.{option_map};
ghost use Rattle.nx_grammar.specs.Reading.{expect as expected};
ghost use Rattle.nx_grammar.specs.Chains.{after_first, closed as closed_at};
ghost use Rattle.nx_cexpr.specs.Signs.{is_sign as has_sign};
ghost use Rattle.nx_cexpr.specs.Reading.{has_node as has_node_at};
ghost use Rattle.nx_cexpr.specs.Answers.{Gives};

use crate::ParseStop;
use nx_ctree::{Sign, Signed};
use nx_grammar::Kind;
use std::marker::Model;

/// The tokens that are left to be read. Contracts see their list.
#[derive(Debug, Drop)]
pub struct Rest<'a> {
    tokens: &'a [Signed<'a>],
}

impl<'a> Model for Rest<'a> {
    ghost use Rattle.std.specs.Prelude.{List};
    ghost use Rattle.nx_ctree.specs.declared.sign.Signed.{Signed as SignedToken};

    ghost Value = { List SignedToken };

    ghost view = { λ s. s.tokens.now };
}

impl<'a> Rest<'a> {
    /// These tokens.
    pub fn new(tokens: &'a [Signed<'a>]) -> Rest<'a>
        ensures { result ≡ tokens.now }
    {
        Rest { tokens }
    }

    /// The tokens.
    pub fn tokens(&self) -> &'a [Signed<'a>]
        ensures { result.now ≡ self.now }
    {
        self.tokens
    }
}

/// Whether a token has this sign.
pub fn is_sign(sign: Sign, token: &Signed<'_>) -> bool
    ensures { result ≡ has_sign sign token.now }
{
    token.sign == sign
}

/// The next token, which has to have this sign, and the tokens after it.
pub fn expect<'a>(
    tokens: &'a [Signed<'a>],
    sign: Sign,
) -> Result<(&'a Signed<'a>, &'a [Signed<'a>]), ParseStop<'a>>
    ensures gives { Gives (λ x. (x.0.now, x.1.now)) result (expected (has_sign sign) tokens.now) }
    ensures shorter { IfOk result (λ x. length x.1.now < length tokens.now) }
{
    match tokens {
        [first, rest @ ..] if is_sign(sign, first) => Ok((first, rest)),
        _ => Err(ParseStop::Fault(Kind::Syntax, tokens)),
    }
}

/// The tokens after one of this sign, where it stands next.
pub fn after<'a>(tokens: &'a [Signed<'a>], sign: Sign) -> Option<&'a [Signed<'a>]>
    ensures gives { option_map (λ x. x.now) result ≡ after_first (has_sign sign) tokens.now }
    ensures shorter { IfSome result (λ x. length x.now < length tokens.now) }
{
    match tokens {
        [first, rest @ ..] if is_sign(sign, first) => Some(rest),
        _ => None,
    }
}

/// What was read, where a token stands after it.
pub fn closed<'a, T: Drop>(
    read: T,
    tokens: &'a [Signed<'a>],
) -> Result<(T, &'a [Signed<'a>]), ParseStop<'a>>
    ensures gives { Gives (λ x. (x.0, x.1.now)) result (closed_at read tokens.now) }
    ensures shorter { IfOk result (λ x. length x.1.now ≤ length tokens.now) }
    ensures same { IfOk result (λ x. x.0 ≡ read) }
{
    match tokens {
        [] => Err(ParseStop::Fault(Kind::Syntax, tokens)),
        _ => Ok((read, tokens)),
    }
}

/// Whether there is a node further down.
pub fn has_node(depth: u32) -> bool
    ensures gives { result ≡ has_node_at depth }
    ensures positive { IsTrue result → 1 ≤ depth }
{
    depth > 0
}

/// Whether what has so many nodes fits further down, beside something else.
pub fn goes_down(height: u32, lower: u32) -> bool
    ensures gives { result ≡ has_node_at lower && nat_lt height (suc lower) }
    ensures positive { IsTrue result → (1 ≤ lower) × (height ≤ lower) }
{
    lower > 0 && height <= lower
}
