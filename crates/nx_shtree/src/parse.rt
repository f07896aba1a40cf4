ghost use Rattle.std.specs.Prelude.{◌≡◌, ◌≤◌, length, map, List, Result, IfOk};
ghost use Rattle.nx_shtok.specs.declared.fault.ShFault.{ShFault as Fault};
ghost use Rattle.nx_shtok.specs.Tokens.{AreEnded};
ghost use Rattle.nx_shtree.specs.Answers.{Gives as GivesReading, fault_seen};
ghost use Rattle.nx_shtree.specs.Trees.{Item as PlainItem, item_of};
ghost use Rattle.nx_shtree.specs.Reading.{script_at};
ghost use Rattle.nx_shtree.specs.Scripts.{first_line as line_of_first, sh_kind as kind_of_fault, Gives, IsAnswer, IsGiven, IsAnswerOf};

use crate::list::list;
use crate::script::Script;
use crate::stop::ParseStop;
use crate::tree::Item;
use nx_grammar::Kind;
use nx_shared::Shared;
use nx_shtok::{ShFault, ShKind, Token, TokenKind, tokens};
use sqlite_items::Items;
use std::alloc::{AllocError, Global};

/// How many levels of `if`, `while` and `until` there may be, and how many words in a command.
const LIMIT: u32 = 32;

/// A script up to its end.
fn whole(
    alloc: Global,
    tokens: &[Token],
    limit: u32,
) -> Result<(Items<Item>, &[Token]), ParseStop<'_>>
    ensures { GivesReading (λ x. (map item_of x.0, x.1.now)) result (script_at limit tokens.now) }
{
    let (items, rest) = list(alloc, tokens, limit, limit)?;
    let [first, ..] = rest else {
        return Err(ParseStop::Fault(Kind::Syntax, rest));
    };
    match &first.kind {
        TokenKind::End => Ok((items, rest)),
        _ => Err(ParseStop::Fault(Kind::Syntax, rest)),
    }
}

fn sh_kind(kind: Kind) -> ShKind
    ensures { result ≡ kind_of_fault kind }
{
    match kind {
        Kind::Syntax => ShKind::Syntax,
        Kind::Limit => ShKind::Limit,
    }
}

/// The line of the first token.
fn first_line(tokens: &[Token]) -> u32
    ensures { result ≡ line_of_first tokens.now }
{
    match tokens {
        [] => 0,
        [first, ..] => first.line,
    }
}

fn shared_script(alloc: Global, items: Items<Item>) -> Result<Script, AllocError>
    ensures { IfOk result (λ s. s ≡ map item_of items) }
{
    let items = Shared::new(alloc, items)?;
    Ok(Script::new(items))
}

/// The answer for a stop.
fn fault_of(stop: ParseStop<'_>) -> ShFault
    ensures { result ≡ fault_seen stop.entry }
{
    match stop {
        ParseStop::Memory => ShFault::Memory,
        ParseStop::Fault(kind, from) => ShFault::Text {
            line: first_line(from),
            kind: sh_kind(kind),
        },
    }
}

/// The script of tokens that end as those of a text do.
#[tactic(auto, using(crate::proofs::Answered::tree_of, crate::proofs::Answered::fault_answer))]
fn script_of(alloc: Global, tokens: &[Token]) -> Result<Script, ShFault>
    requires ended { AreEnded tokens.now }
    ensures { IsAnswerOf tokens.now result }
{
    match whole(alloc, tokens, LIMIT) {
        Err(stop) => Err(fault_of(stop)),
        Ok((items, _)) => {
            let script = shared_script(alloc, items)?;
            Ok(script)
        }
    }
}

/// Reads a script of at most 1,048,576 bytes. A fault is named with its line, counted from 1: a byte
/// or a quote that no script has, or else the first token that no script has after those before it.
/// It is `Limit` where some script with more than 32 levels, or with more than 32 words in a command,
/// goes on with it.
#[tactic(auto, using(crate::proofs::Answered::no_tokens, crate::proofs::Answered::only_no_tokens, crate::proofs::Answered::read_by, crate::proofs::Answered::only_by))]
pub fn parse_script(alloc: Global, bytes: &[u8]) -> Result<Script, ShFault>
    requires { length bytes.now ≤ 1048576 }
    // The answer is what the text gives: its script, or its first fault.
    ensures read { IsAnswer bytes.now result }
    // What the text gives is answered, unless memory runs out.
    ensures only { (out : Result (List PlainItem) Fault) → Gives bytes.now out → IsGiven result out }
{
    let tokens = tokens(alloc, bytes)?;
    script_of(alloc, tokens.as_slice())
}
