ghost use Rattle.nx_ctree.specs.Programs.{IsUnit};
ghost use Rattle.nx_cstmt.specs.Reading.{part_pick};
ghost use Rattle.nx_cparse.specs.Reading.{unit_at};
ghost use Rattle.nx_cparse.specs.Files.{IsEnd, ReadsFiles, ReadsAllFiles, HasOneTree, GoesWrongThere, last as end_token};

use nx_ctree::{Signed, Unit};
use nx_grammar::{Grammar, ended_fault_is_first, one_tree};

/// Files of C as a grammar, whose limit is on the nodes of a path in a function.
#[derive(Clone, Copy, Debug)]
pub struct Files;

impl Grammar for Files {
    type Token = Signed<'static>;

    type Tree = Unit;

    ghost reading = { unit_at part_pick };

    ghost has = { IsUnit };

    ghost follows = { IsEnd };

    ghost begins = { IsEnd };

    ghost last = { end_token };

    ghost margin = { 4 };
}

/// A law: what is read as a file is one by the grammar, with that tree.
pub fn a_file_that_is_read_was_there()
    ensures { ReadsFiles }
{}

/// A law: each file of the grammar within the limit is read with its tree.
pub fn a_file_that_was_there_is_read()
    ensures { ReadsAllFiles }
{}

/// A law: a list of tokens is one file at most.
pub fn a_file_has_one_tree()
    ensures { HasOneTree }
{
    one_tree::<Files>();
}

/// A law: tokens up to an end that are refused are refused at the first token that ends no beginning
/// of a file within the limit, and the kind says whether a wider limit has one.
pub fn a_refused_file_goes_wrong_there()
    ensures { GoesWrongThere }
{
    ended_fault_is_first::<Files>();
}
