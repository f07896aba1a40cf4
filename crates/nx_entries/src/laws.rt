ghost use Rattle.nx_entries.specs.Laws.{EntriesOpen, EntriesTell, ReturnsLead};

/// A law: where a function's frame fits the stack, its entry opens the frame, keeps where to return and the arguments,
/// and changes no byte outside the frame's words; where it doesn't fit, the entry makes call 0 with the bytes that all
/// open calls would need, and has changed no byte.
pub fn a_function_is_entered_or_tells_its_need()
    ensures opens { EntriesOpen }
    ensures tells { EntriesTell }
{}

/// A law: a return brings the value into register 10, closes the frame and leads to where the function was called.
pub fn a_function_returns_its_value()
    ensures { ReturnsLead }
{}
