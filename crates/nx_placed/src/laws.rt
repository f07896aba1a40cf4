ghost use Rattle.nx_placed.specs.Laws.{WordsKeepSlotPrograms};

/// A law: the words of a program that a link has placed keep its slot code as a program of the system. Its threads make
/// the same calls with the same words and bytes, whatever the globals are each time that a thread goes on, in at most as
/// many instructions as its operations cost.
pub fn words_keep_slot_programs()
    ensures { WordsKeepSlotPrograms }
{}
