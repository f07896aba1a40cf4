ghost use Rattle.nx_clearing.specs.Laws.{ArraysAreCleared};

/// A law: the instructions that make an array set its words to zeros, at most three for each word and six more, and
/// change no other byte, no register that a thread keeps and no temporary.
pub fn an_array_is_set_to_zeros()
    ensures { ArraysAreCleared }
{}
