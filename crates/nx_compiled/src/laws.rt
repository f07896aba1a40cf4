ghost use Rattle.nx_compiled.specs.Laws.{WordsKeepPrograms};

/// A law: where a link has placed the slot code of a checked program, the words there make the calls that the program
/// makes, with the same words and bytes, for every reply and whatever the globals then are; they end where it ends, tell
/// the need of a function that its stack can't hold, and make at most 64 instructions for each of its steps.
pub fn words_keep_programs()
    ensures { WordsKeepPrograms }
{}
