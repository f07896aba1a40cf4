ghost use Rattle.std.specs.Prelude.{◌≡◌, ℕ, List, Bool, Ok};
ghost use Rattle.nx_calls.specs.declared.row.CallRow.{CallRow};
ghost use Rattle.nx_checked.specs.declared.checked.CheckedFunction.{CheckedFunction};
ghost use Rattle.nx_checked.specs.declared.checked.CheckedStmt.{CheckedStmt};
ghost use Rattle.nx_ctree.specs.declared.program.Function.{Function};
ghost use Rattle.nx_ctree.specs.declared.program.Param.{Param};
ghost use Rattle.nx_ctype.specs.declared.names.Names.{Names};
ghost use Rattle.nx_ctype.specs.declared.used.Used.{Used};
ghost use Rattle.nx_cbody.specs.Trees.{Stmts};
ghost use Rattle.nx_cbody.specs.Statements.{stmts_verdict};
ghost use Rattle.nx_cbody.specs.TypedStatements.{AreTyped};
ghost use Rattle.nx_cbody.specs.Functions.{function_verdict};
ghost use Rattle.nx_cbody.specs.TypedFunctions.{IsFunction};

/// Well typed statements are accepted, with what they do.
#[tactic(auto, using(crate::proofs::Sound::all_sound))]
pub fn well_typed_statements_are_accepted()
    ensures { (names : Names) (rows : List CallRow) (returns : Bool) (ss : Stmts) (s t : Used) (xs : List CheckedStmt) → AreTyped names rows returns ss s xs t → stmts_verdict names rows returns ss s ≡ Ok (xs, t) }
{}

/// No other statements are accepted, and none with another meaning.
#[tactic(auto, using(crate::proofs::Complete::all_complete))]
pub fn accepted_statements_are_well_typed()
    ensures { (names : Names) (rows : List CallRow) (returns : Bool) (ss : Stmts) (s t : Used) (xs : List CheckedStmt) → stmts_verdict names rows returns ss s ≡ Ok (xs, t) → AreTyped names rows returns ss s xs t }
{}

/// A well typed function is accepted, with what it does.
#[tactic(auto, using(crate::proofs::Functions::function_on))]
pub fn a_well_typed_function_is_accepted()
    ensures { (rows : List CallRow) (names : Names) (line : ℕ) (returns : Bool) (ps : List Param) (f : Function) (s t : Used) (g : CheckedFunction) → IsFunction rows names returns ps f s g t → function_verdict rows names line returns ps f s ≡ Ok (g, t) }
{}

/// No other function is accepted, and none with another meaning.
#[tactic(auto, using(crate::proofs::Functions::function_back))]
pub fn an_accepted_function_is_well_typed()
    ensures { (rows : List CallRow) (names : Names) (line : ℕ) (returns : Bool) (ps : List Param) (f : Function) (s t : Used) (g : CheckedFunction) → function_verdict rows names line returns ps f s ≡ Ok (g, t) → IsFunction rows names returns ps f s g t }
{}
