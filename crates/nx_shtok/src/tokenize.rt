ghost use Rattle.std.specs.Prelude.{◌≡◌, ◌≤◌, ◌++◌, [], ℕ, length, List, Result, IfOk, OnOk};
ghost use Rattle.nx_shtok.specs.declared.fault.ShFault.{ShFault as Fault};
ghost use Rattle.nx_shtok.specs.declared.token.Token.{Token as TokenOf};
ghost use Rattle.nx_shtok.specs.Answers.{IsAnswer, IsGiven};
ghost use Rattle.nx_shtok.specs.Places.{Reached};
ghost use Rattle.nx_shtok.specs.Tokens.{HasTokens, AreEnded, last_tokens};

use crate::fault::ShFault;
use crate::reader::Reader;
use crate::token::{Token, TokenKind};
use sqlite_items::Items;
use std::alloc::{AllocError, Global};

/// The newline and the end after the other tokens.
fn push_last(found: &mut Items<Token>, line: u32) -> Result<(), AllocError>
    ensures { OnOk result (found.new ≡ found.old ++ last_tokens line) }
{
    found.push(Token {
        kind: TokenKind::Newline,
        line,
    })?;
    found.push(Token {
        kind: TokenKind::End,
        line,
    })?;
    Ok(())
}

/// The tokens up to a text's end, and the last ones.
fn ended(reader: Reader, rest: &[u8]) -> Result<Items<Token>, ShFault>
    requires { rest.now ≡ [] }
    ensures { (text : List ℕ) → Reached text reader rest.now → IsAnswer text result }
{
    let Reader { mut found, line } = reader;
    push_last(&mut found, line)?;
    Ok(found)
}

/// What a text gives.
fn read_tokens(alloc: Global, bytes: &[u8]) -> Result<Items<Token>, ShFault>
    requires { length bytes.now ≤ 1048576 }
    ensures { IsAnswer bytes.now result }
{
    let mut reader = Reader::new(alloc);
    let mut rest = bytes;
    while !rest.is_empty() {
        match reader.take(alloc, bytes, rest) {
            Ok(after) => rest = after,
            Err(fault) => return Err(fault),
        }
    }
    ended(reader, rest)
}

/// The tokens of a script, of which the last two are a newline and the only end. Words keep their
/// quotes and expansions as parts, and comments are dropped.
#[tactic(auto, using(crate::proofs::Outcomes::only_answer, crate::proofs::Outcomes::reads_ended))]
pub fn tokens(alloc: Global, bytes: &[u8]) -> Result<Items<Token>, ShFault>
    requires { length bytes.now ≤ 1048576 }
    // The answer is what the text gives: its tokens, or its first fault.
    ensures read { IsAnswer bytes.now result }
    // What the text gives is answered, unless memory runs out.
    ensures only { (out : Result (List TokenOf) Fault) → HasTokens bytes.now out → IsGiven result out }
    // The list ends with a newline and its only end.
    ensures ended { IfOk result (λ ts. AreEnded ts) }
{
    read_tokens(alloc, bytes)
}
