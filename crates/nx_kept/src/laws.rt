ghost use Rattle.nx_kept.specs.Laws.{StepsAreDone, WordsKeepSlotCode};

/// A law: where a state of slot code stands in registers and memory, at most as many instructions as its next step costs do
/// what the step does.
pub fn each_step_is_done()
    ensures { StepsAreDone }
{}

/// A law: the words of a linked program make the calls of its slot code, one after another, for every reply, over every
/// view, and for no more instructions than slot code costs. Where slot code makes no call, no call and no trap comes.
pub fn words_keep_slot_code()
    ensures { WordsKeepSlotCode }
{}
