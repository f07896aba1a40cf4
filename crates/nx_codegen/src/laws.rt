ghost use Rattle.nx_codegen.specs.Fitting.{TakesTheSame, FitTheirWords, FilledIn};

/// A law: an operation takes as many instructions wherever it stands, wherever its jump leads and whatever a link gives.
pub fn an_operation_takes_as_many_instructions_wherever_it_stands()
    ensures { TakesTheSame }
{}

/// A law: the fields of each instruction fit its word.
pub fn instructions_fit_their_words()
    ensures { FitTheirWords }
{}

/// A law: what is emitted, with its refs filled in, is the function's code.
pub fn refs_filled_in_give_the_instructions()
    ensures { FilledIn }
{}
