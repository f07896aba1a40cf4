ghost use Rattle.nx_shtree.specs.Grammar.{IsScript};
ghost use Rattle.nx_shtree.specs.Reading.{script_at};
ghost use Rattle.nx_shtree.specs.Laws.{IsEnd, EndsList, end_token, ReadsScripts, ReadsAllScripts, HasOneTree, GoesWrongThere};

use crate::script::Script;
use nx_grammar::{Grammar, ended_fault_is_first, one_tree};
use nx_shtok::Token;

/// Scripts as a grammar, whose limit is on the levels and on the words of a command.
#[derive(Clone, Copy, Debug)]
pub struct Scripts;

impl Grammar for Scripts {
    type Token = Token;

    type Tree = Script;

    ghost reading = { script_at };

    ghost has = { IsScript };

    ghost follows = { IsEnd };

    ghost begins = { EndsList };

    ghost last = { end_token };

    ghost margin = { 1 };
}

/// A law: what is read as a script up to its end is one by the grammar, with that tree.
pub fn a_script_that_is_read_was_there()
    ensures { ReadsScripts }
{}

/// A law: each script of the grammar within the limit is read with its tree.
pub fn a_script_that_was_there_is_read()
    ensures { ReadsAllScripts }
{}

/// A law: a list of tokens is one script at most.
pub fn a_script_has_one_tree()
    ensures { HasOneTree }
{
    one_tree::<Scripts>();
}

/// A law: tokens up to an end that are refused are refused at the first token that ends no beginning
/// of a script within the limit, and the kind says whether a wider limit has one.
pub fn a_refused_script_goes_wrong_there()
    ensures { GoesWrongThere }
{
    ended_fault_is_first::<Scripts>();
}
