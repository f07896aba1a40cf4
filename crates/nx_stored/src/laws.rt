ghost use Rattle.nx_stored.specs.Laws.{OperationsOnObjectsAreDone};

/// A law: where the innermost call stands at an operation that reads or writes an element or makes an array, one
/// instruction or more, and at most as many as it costs, lead on to the state that the operation makes.
pub fn operations_on_objects_are_done()
    ensures { OperationsOnObjectsAreDone }
{}
