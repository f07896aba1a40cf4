ghost use Rattle.nx_shown.specs.Leading.{InstructionsLead, LeadsOn, LoadsAreShown, StoresAreShown};

/// A law: a load from a thread's stack, data or literals gives the number that is shown there.
pub fn a_load_gives_what_is_shown()
    ensures { LoadsAreShown }
{}

/// A law: a store into a thread's stack or data is let through, shows there, and changes nothing else: neither other
/// bytes nor what may be run.
pub fn a_store_changes_what_is_shown_there_alone()
    ensures { StoresAreShown }
{}

/// A law: each instruction that compiled code has leads on as the table says, whatever number of instructions may still
/// be made, and parts of code lead on one after another.
pub fn each_instruction_leads_on()
    ensures one { InstructionsLead }
    ensures parts { LeadsOn }
{}
