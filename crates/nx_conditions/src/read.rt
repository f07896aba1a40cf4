ghost use Rattle.std.specs.Prelude.{◌≡◌, ◌≤◌, length, IfOk};
ghost use Rattle.nx_conditions.specs.Grammar.{IsCondition};
ghost use Rattle.nx_conditions.specs.Answers.{IsGiven};
ghost use Rattle.nx_conditions.specs.declared.condition.Condition.{Condition};

use crate::parse::{ParseStop, condition};
use crate::{Condition, ConditionStop, tokens};
use std::alloc::Global;

/// How deep a condition of 1,024 bytes and its end can nest at most: each token but the end takes a byte.
const DEPTH: u32 = 1025;

/// The tree of a condition.
pub fn read_condition(alloc: Global, bytes: &[u8]) -> Result<Condition, ConditionStop>
    requires { length bytes.now ≤ 1024 }
    // What is given is the bytes' tree by the grammar.
    ensures read { IfOk result (λ a. IsCondition bytes.now a) }
    // Where the bytes have a tree, it is given, unless memory runs out: so `Bad` says that they have none.
    ensures only { (a : Condition) → IsCondition bytes.now a → IsGiven result a }
{
    let found = tokens(alloc, bytes)?;
    match condition(alloc, found.as_slice(), DEPTH) {
        Ok((tree, _)) => Ok(tree),
        Err(ParseStop::Memory) => Err(ConditionStop::Memory),
        Err(ParseStop::Fault(_, _)) => Err(ConditionStop::Bad),
    }
}
