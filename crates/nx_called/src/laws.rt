ghost use Rattle.nx_called.specs.Laws.{CallsAndReturnsAreDone};

/// A law: where the innermost call stands at a call or a return, at most as many instructions as it costs lead into the
/// function, back to the caller, to the kernel's call with its words over memory that shows the objects, to the thread's
/// end, or to the call that tells the need of a frame that doesn't fit.
pub fn calls_and_returns_are_done()
    ensures { CallsAndReturnsAreDone }
{}
