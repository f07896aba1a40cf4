ghost use Rattle.std.specs.Prelude.{◌≡◌, ◌≤◌, ◌++◌, ◌∷◌, [], ℕ, length, List, Result, IfOk, OnOk};
ghost use Rattle.nx_ctok.specs.declared.fault.CFault.{CFault as Fault};
ghost use Rattle.nx_ctok.specs.declared.token.Token.{Token as TokenOf};
ghost use Rattle.nx_ctok.specs.declared.token.TokenKind.TheVariants.{End};
ghost use Rattle.nx_ctok.specs.Answers.{IsAnswer, IsGiven};
ghost use Rattle.nx_ctok.specs.Reading.{Reached};
ghost use Rattle.nx_ctok.specs.Tokens.{HasTokens, AreEnded};

use crate::fault::CFault;
use crate::reader::Reader;
use crate::token::{Spelling, Token, TokenKind};
use std::alloc::{AllocError, Global};

/// The end after the other tokens.
fn push_end<'a>(found: &mut Vec<Token<'a>>, line: u32, rest: &'a [u8]) -> Result<(), AllocError>
    ensures { OnOk result (found.new.items ≡ found.old.items ++ record { kind = End; text = rest.now; line = line } ∷ []) }
{
    found.push(Token {
        kind: TokenKind::End,
        text: Spelling::new(rest),
        line,
    })?;
    Ok(())
}

/// The tokens up to a text's end, and the end.
fn ended<'a>(reader: Reader<'a>, rest: &'a [u8]) -> Result<Vec<Token<'a>>, CFault>
    requires { rest.now ≡ [] }
    ensures { (text : List ℕ) → Reached text reader.entry rest.now → IsAnswer text result }
{
    let Reader {
        mut found,
        table: _,
        line,
        fresh: _,
    } = reader;
    push_end(&mut found, line, rest)?;
    Ok(found)
}

/// What a text gives.
fn read_tokens(alloc: Global, bytes: &[u8]) -> Result<Vec<Token<'_>>, CFault>
    requires { length bytes.now ≤ 1048576 }
    ensures { IsAnswer bytes.now result }
{
    let mut reader = Reader::new(alloc);
    let mut rest = bytes;
    while !rest.is_empty() {
        match reader.take(alloc, rest) {
            Ok(after) => rest = after,
            Err(fault) => return Err(fault),
        }
    }
    ended(reader, rest)
}

/// The tokens of a C program, of which the last is the only end: comments are dropped, `#include`
/// lines are ignored, and names that `#define` gives, and the predefined ones, are replaced
/// (C11 sections 6.4 and 6.10.3, as far as this C has them).
#[tactic(auto, using(crate::proofs::Outcomes::only_answer, crate::proofs::Outcomes::reads_ended))]
pub fn tokens(alloc: Global, bytes: &[u8]) -> Result<Vec<Token<'_>>, CFault>
    requires { length bytes.now ≤ 1048576 }
    // The answer is what the text gives: its tokens, or its first fault.
    ensures read { IsAnswer bytes.now result }
    // What the text gives is answered, unless memory runs out.
    ensures only { (out : Result (List TokenOf) Fault) → HasTokens bytes.now out → IsGiven result out }
    // The list ends with its only end, and each other token is spelled as its kind is.
    ensures ended { IfOk result (λ ts. AreEnded ts.items) }
{
    read_tokens(alloc, bytes)
}
