ghost use Rattle.nx_pieces.specs.Laws.{CellsAreRead, CellsAreWritten, NumbersAreMade, PlacesAreMade, WordsAreRead, WordsAreWritten};

/// A law: one or two instructions bring a number into a register, and up to three the address of a place in the frame.
pub fn a_number_comes_into_a_register()
    ensures numbers { NumbersAreMade }
    ensures places { PlacesAreMade }
{}

/// A law: a word of the open frame is read and written, however far from the stack pointer it stands.
pub fn a_word_of_the_frame_is_read_and_written()
    ensures reads { WordsAreRead }
    ensures writes { WordsAreWritten }
{}

/// A law: a cell's value comes into a register, and no other register but a spare one changes.
pub fn a_cell_comes_into_a_register()
    ensures { CellsAreRead }
{}

/// A law: what stands in a cell's register, or in register 5, becomes the cell's value; the other cells, the registers
/// that a thread keeps and all other bytes stay.
pub fn a_cell_alone_is_written()
    ensures { CellsAreWritten }
{}
