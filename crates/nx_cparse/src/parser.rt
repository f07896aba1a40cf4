ghost use Rattle.std.specs.Prelude.{◌≡◌, map, IfOk};
ghost use Rattle.nx_grammar.specs.Reading.{Out};
ghost use Rattle.nx_ctok.specs.Tokens.{AreEnded};
ghost use Rattle.nx_ctree.specs.Signs.{with_sign as signed_of};
ghost use Rattle.nx_ctree.specs.Programs.{IsUnit};
ghost use Rattle.nx_ctree.specs.declared.sign.Signed.{Signed as SignedToken};
ghost use Rattle.nx_ctree.specs.declared.program.Unit.{Unit as File};
ghost use Rattle.nx_cexpr.specs.Answers.{GivesFault};
ghost use Rattle.nx_cstmt.specs.Answers.{ReadsParts};
ghost use Rattle.nx_cstmt.specs.Reading.{part_pick};
ghost use Rattle.nx_cparse.specs.Reading.{unit_at};
ghost use Rattle.nx_cparse.specs.Answers.{signs_of, fault_kind, IsParsed, GivesTree, IsFaultOf, IsAnswerOf};

use crate::external::unit;
use crate::tokens::first_line;
use nx_cexpr::ParseStop;
use nx_cstmt::inner::Answer;
use nx_ctok::{CFault, CKind, Token};
use nx_ctree::{Expr, Signed, Unit, with_sign};
use nx_grammar::Kind;
use std::alloc::{AllocError, Global};

/// How many nodes a path in a function's tree may have.
const MOST_NODES: u32 = 64;

/// The tokens as the grammar sees them.
fn signs<'a>(alloc: Global, tokens: &[Token<'a>]) -> Result<Vec<Signed<'a>>, AllocError>
    ensures { IfOk result (λ v. v.items ≡ map signed_of tokens.now) }
{
    tokens.iter().map(|token| with_sign(token)).collect(alloc)
}

fn kind_of(kind: Kind) -> CKind
    ensures { result ≡ fault_kind kind }
{
    match kind {
        Kind::Syntax => CKind::Syntax,
        Kind::Limit => CKind::Limit,
    }
}

/// The fault at a token.
fn fault(stop: ParseStop) -> CFault
    ensures { (read : Out SignedToken File) → GivesFault stop.entry read → IsFaultOf result read }
{
    match stop {
        ParseStop::Memory => CFault::Memory,
        ParseStop::Fault(kind, from) => CFault::Text {
            line: first_line(from),
            kind: kind_of(kind),
        },
    }
}

fn parse_signs<'a, P: for<'b> Fn(&'b [Signed<'b>], u32) -> Answer<'b, Expr>>(
    alloc: Global,
    parts: &P,
    tokens: &'a [Signed<'a>],
) -> Result<Unit, CFault>
    requires parts { ReadsParts (P.pre parts.now) (P.post parts.now) }
    ensures { IsAnswerOf result (unit_at part_pick 64 tokens.now) }
{
    match unit(alloc, parts, tokens, MOST_NODES) {
        Ok((tree, _)) => Ok(tree),
        Err(stop) => Err(fault(stop)),
    }
}

/// The tree of a C program's tokens (C11 section 6.9), as far as this C has its grammar, by what reads its expressions.
pub fn parse_by<'a, P: for<'b> Fn(&'b [Signed<'b>], u32) -> Answer<'b, Expr>>(
    alloc: Global,
    parts: &P,
    tokens: &[Token<'a>],
) -> Result<Unit, CFault>
    requires parts { ReadsParts (P.pre parts.now) (P.post parts.now) }
    requires ended { AreEnded tokens.now }
    // A tree is the tokens' by the grammar, and a fault stands at the first token that no accepted list has after those before it.
    ensures read { IsParsed (signs_of tokens.now) result }
    // What has a tree is read, with that tree, unless memory runs out.
    ensures only { (a : File) → IsUnit 64 (signs_of tokens.now) a → GivesTree result a }
{
    let signs = signs(alloc, tokens)?;
    parse_signs(alloc, parts, signs.as_slice())
}
