ghost use Rattle.std.specs.Prelude.{◌≤◌, length};
ghost use Rattle.nx_ctree.specs.declared.program.Unit.{Unit as File};
ghost use Rattle.nx_cparse.specs.Answers.{GivesTree};
ghost use Rattle.nx_cfile.specs.Texts.{HasTree, IsTextRead};

use crate::parser::parse;
use nx_ctok::{CFault, tokens};
use nx_ctree::Unit;
use std::alloc::Global;

/// The tree of a C program's text of up to 1,048,576 bytes, as far as this C has its grammar.
pub fn parse_text(alloc: Global, bytes: &[u8]) -> Result<Unit, CFault>
    requires { length bytes.now ≤ 1048576 }
    // A tree is the tree of the text's tokens, and a fault is the first: one of a token, or the first token that no accepted list has after those before it.
    ensures read { IsTextRead bytes.now result }
    // A text that has a tree is read, with that tree, unless memory runs out.
    ensures only { (a : File) → HasTree bytes.now a → GivesTree result a }
{
    match tokens(alloc, bytes) {
        Err(fault) => Err(fault),
        Ok(found) => parse(alloc, found.as_slice()),
    }
}
