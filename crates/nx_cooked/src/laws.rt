ghost use Rattle.nx_cooked.specs.Laws.{InputsAreTaken, OutputsArePut};

/// A law: where a view shows the objects of slot code and registers hold the words of a call's arguments, the bytes that
/// are taken from the view as inputs are those of the objects.
pub fn inputs_are_taken_from_objects()
    ensures { InputsAreTaken }
{}

/// A law: outputs that are put into such a view are put into the objects, and nothing else changes but in the thread's
/// stack and the program's data.
pub fn outputs_are_put_into_objects()
    ensures { OutputsArePut }
{}
