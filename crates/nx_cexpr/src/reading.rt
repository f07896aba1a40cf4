ghost use Rattle.std.specs.Prelude.{◌≡◌, suc};
ghost use Rattle.nx_ctree.specs.Expressions.{whole};
ghost use Rattle.nx_ctree.specs.declared.sign.Sign.TheVariants.{Number};
ghost use Rattle.nx_cexpr.specs.Signs.{Stops};
ghost use Rattle.nx_cexpr.specs.Reading.{expr_at};
ghost use Rattle.nx_cexpr.specs.Laws.{ReadsAllThatIsThere, ReadsWhatIsThere, HasOneTree, HasExpr, GoesWrongThere, last as end_token};

use crate::Tall;
use nx_ctree::Signed;
use nx_grammar::{Grammar, fault_is_first};

/// A law: what is read as an expression stood there by the grammar, with that tree, and no path of
/// the tree has more nodes than the limit.
pub fn an_expression_that_is_read_was_there()
    ensures { ReadsWhatIsThere }
{}

/// A law: what is an expression by the grammar, with no more nodes on a path of its tree than the
/// limit, is read with that tree, where a token that goes on with no expression stands after it.
pub fn an_expression_that_was_there_is_read()
    ensures { ReadsAllThatIsThere }
{}

/// A law: tokens that begin with an expression, before a token that goes on with none, have one tree,
/// and one place where it ends.
pub fn an_expression_has_one_tree()
    ensures { HasOneTree }
{}

/// Expressions as a grammar with a limit: one of at most a node more, and after it a token that goes
/// on with none.
#[derive(Clone, Copy, Debug)]
pub struct Expressions;

impl Grammar for Expressions {
    type Token = Signed<'static>;

    type Tree = Tall;

    ghost reading = { λ limit. expr_at (suc limit) };

    ghost has = { HasExpr };

    ghost follows = { Stops whole };

    ghost begins = { λ t. t.sign ≡ Number };

    ghost last = { end_token };

    ghost margin = { 2 };
}

/// A law: a text up to its end that is refused is refused at the first token that ends no beginning
/// of an expression within the limit, and the kind says whether a wider limit has one.
pub fn a_refused_expression_goes_wrong_there()
    ensures { GoesWrongThere }
{
    fault_is_first::<Expressions>();
}
