ghost use Rattle.nx_slot.specs.Laws.{AnswersOnce, RunsInParts, FaultsAreDemands, ChangesTheOpenCall, CallersSurvive, AskersSurvive, EntriesNeedTheOpenCalls, CostsLittle, CostsEach};

/// A law: a run comes to one answer. However many more operations may be made, it is the same; and a run is its parts,
/// one after another.
pub fn a_run_comes_to_one_answer()
    ensures once { AnswersOnce }
    ensures parts { RunsInParts }
{}

/// A law: a step goes wrong exactly where a demand of its operation isn't met: where there is no operation, a cell isn't
/// there, a value or a count doesn't fit, an access lies outside, or a call's buffer or text isn't there. The first such
/// demand is the fault.
pub fn an_operation_fails_by_its_first_demand()
    ensures { FaultsAreDemands }
{}

/// A law: a step changes the open call alone. Those below it stay as they are, until one of them gets its value.
pub fn a_step_changes_the_open_call_alone()
    ensures { ChangesTheOpenCall }
{}

/// A law: over a call the caller keeps its cells below those of the arguments, and the value comes to the first of these.
pub fn calls_keep_the_cells_below_their_arguments()
    ensures functions { CallersSurvive }
    ensures kernel { AskersSurvive }
{}

/// A law: an entry needs the bytes of all open calls and its own. Where they are more than the stack, the entry tells
/// them; where they aren't, they stay within it.
pub fn an_entry_needs_the_open_calls()
    ensures { EntriesNeedTheOpenCalls }
{}

/// A law: an operation costs an instruction at least, and 30 at most, with 3 more for each word that it sets to zero.
pub fn operations_cost_little()
    ensures each { CostsLittle }
    ensures run { CostsEach }
{}
