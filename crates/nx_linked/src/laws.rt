ghost use Rattle.nx_linked.specs.Laws.{FramesFillTheStack, ObjectsLieOffWords, OwnersStay, WaitingCallsStay};

/// A law: where the words of waiting calls are as they were, and objects keep their addresses and widths, these calls wait
/// as before, and own their arrays.
pub fn waiting_calls_stay_where_their_words_do()
    ensures waits { WaitingCallsStay }
    ensures owns { OwnersStay }
{}

/// A law: no byte of an object is one of the words of an open frame.
pub fn no_object_lies_in_the_words_of_a_frame()
    ensures { ObjectsLieOffWords }
{}

/// A law: the open calls need the bytes from the innermost frame to the stack's end.
pub fn frames_fill_the_stack()
    ensures { FramesFillTheStack }
{}
