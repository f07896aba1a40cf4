ghost use Rattle.nx_lower.specs.Laws.{LoadsAlike, StoresAlike, VariablesAlike, ArraysAlike, EndsAlike, OutputsAlike, CallsAlike};
ghost use Rattle.nx_lower.specs.Programs.{LowersPrograms};

/// A law: where C reads an element, slot code reads the same number, and where C stores one, slot code stores it, and
/// both have the same objects after it.
pub fn elements_are_read_and_stored_alike()
    ensures reads { LoadsAlike }
    ensures stores { StoresAlike }
{}

/// A law: a variable of the file is an object of one word, which is read and written as the variable is.
pub fn a_word_of_slot_code_is_a_variable()
    ensures { VariablesAlike }
{}

/// A law: a new array is the next object of both, and when a call is over its arrays end in both.
pub fn arrays_begin_and_end_alike()
    ensures begins { ArraysAlike }
    ensures ends { EndsAlike }
{}

/// A law: the outputs of a reply are put into the same objects. Texts stay as they are.
pub fn outputs_are_put_alike()
    ensures { OutputsAlike }
{}

/// A law: a call of the kernel has the same words and bytes, and its outputs are put at the same pointers.
pub fn calls_have_the_same_words_and_bytes()
    ensures { CallsAlike }
{}

/// A law: the slot code of a program makes the same calls as the program, with the same words and bytes, and goes on
/// alike after every reply that fits, whatever the variables and arrays of the file are by then. It ends with the same
/// number, and where the program has no room for a call of a function it tells the same need. By each of these it costs
/// at most 64 instructions for each step of the program, and it makes no call that the program doesn't make. Where the
/// program goes wrong, nothing is said.
pub fn slot_code_keeps_its_program()
    ensures { LowersPrograms }
{}
