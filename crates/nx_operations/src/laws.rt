ghost use Rattle.nx_operations.specs.Accesses.{AccessesAreMade};
ghost use Rattle.nx_operations.specs.Jumps.{JumpsLead, TestsLead};
ghost use Rattle.nx_operations.specs.Laws.{BinariesGive, ComparisonsGive, ConstantsGive, OperationsWrite, UnariesGive};

/// A law: the instructions of each operator give its number in a register, whether its right side is in a register or is
/// a number of its own.
pub fn operators_give_their_numbers()
    ensures comparisons { ComparisonsGive }
    ensures binaries { BinariesGive }
    ensures constants { ConstantsGive }
    ensures unaries { UnariesGive }
{}

/// A law: the instructions of an operation on cells write the operation's number into its cell, and change no other cell,
/// no register that a thread keeps and no other byte.
pub fn operations_write_their_cell()
    ensures { OperationsWrite }
{}

/// A law: the instructions of a load and of a fetch write the number that is shown in memory into a cell; those of a
/// store and of a keep put a cell's number there, and change nothing else that lasts.
pub fn accesses_read_and_write_memory()
    ensures { AccessesAreMade }
{}

/// A law: a jump leads to its place, near or far; a test leads behind its code where it holds, and else to its place.
pub fn jumps_and_tests_lead_to_their_places()
    ensures jumps { JumpsLead }
    ensures tests { TestsLead }
{}
