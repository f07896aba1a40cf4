ghost use Rattle.nx_acted.specs.Laws.{OperationsOnCellsAreDone};

/// A law: where the innermost call stands at an operation that moves or makes a value, jumps, or makes an address, one
/// instruction or more, and at most as many as it costs, lead on to the state that the operation makes.
pub fn operations_on_cells_are_done()
    ensures { OperationsOnCellsAreDone }
{}
