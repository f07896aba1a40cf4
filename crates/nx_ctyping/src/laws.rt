ghost use Rattle.std.specs.Prelude.{◌≡◌, List, Ok};
ghost use Rattle.nx_calls.specs.declared.row.CallRow.{CallRow};
ghost use Rattle.nx_crules.specs.declared.types.Typed.{Typed};
ghost use Rattle.nx_ctype.specs.declared.names.Names.{Names};
ghost use Rattle.nx_ctype.specs.declared.used.Used.{Used};
ghost use Rattle.nx_ctyping.specs.Trees.{Expr};
ghost use Rattle.nx_ctyping.specs.Verdicts.{verdict};
ghost use Rattle.nx_ctyping.specs.HasTypes.{HasType};

/// A well typed expression is accepted, with its type and what it does.
#[tactic(auto, using(crate::proofs::Sound::sound))]
pub fn a_well_typed_expression_is_accepted()
    ensures { (names : Names) (rows : List CallRow) (e : Expr) (s t : Used) (x : Typed) → HasType names rows e s x t → verdict names rows e s ≡ Ok (x, t) }
{}

/// No other expression is accepted, and none with another type or another meaning.
#[tactic(auto, using(crate::proofs::Complete::complete))]
pub fn an_accepted_expression_is_well_typed()
    ensures { (names : Names) (rows : List CallRow) (e : Expr) (s t : Used) (x : Typed) → verdict names rows e s ≡ Ok (x, t) → HasType names rows e s x t }
{}
