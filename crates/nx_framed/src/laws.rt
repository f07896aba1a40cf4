ghost use Rattle.nx_framed.specs.Laws.{FunctionsNameTheirCells, FramesHoldTheirCells};

/// A law: the slot code of each function of a sound program names cells that the function has, among them its
/// temporaries, and hands on at most six of them.
pub fn functions_name_their_cells()
    ensures { FunctionsNameTheirCells }
{}

/// A law: the frame of each function of a checked program is a multiple of 16 bytes and holds its slot code's cells and
/// arrays.
pub fn frames_hold_their_cells()
    ensures { FramesHoldTheirCells }
{}
