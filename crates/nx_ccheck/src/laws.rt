ghost use Rattle.std.specs.Prelude.{◌≡◌, List, Ok};
ghost use Rattle.nx_calls.specs.declared.row.CallRow.{CallRow};
ghost use Rattle.nx_checked.specs.declared.checked.Checked.{Checked};
ghost use Rattle.nx_ctree.specs.declared.program.Unit.{Unit as File};
ghost use Rattle.nx_ccheck.specs.Files.{file_verdict};
ghost use Rattle.nx_ccheck.specs.TypedFiles.{IsFile};

/// A well typed file is accepted, with what it does.
#[tactic(auto, using(crate::proofs::Whole::file_on))]
pub fn a_well_typed_file_is_accepted()
    ensures { (rows : List CallRow) (file : File) (p : Checked) → IsFile rows file p → file_verdict rows file ≡ Ok p }
{}

/// No other file is accepted, and none with another meaning.
#[tactic(auto, using(crate::proofs::Whole::file_back))]
pub fn an_accepted_file_is_well_typed()
    ensures { (rows : List CallRow) (file : File) (p : Checked) → file_verdict rows file ≡ Ok p → IsFile rows file p }
{}
