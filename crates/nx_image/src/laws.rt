ghost use Rattle.nx_image.specs.Apart.{PiecesStandApart};

/// A law: in every image no two parts of one view share an address: pool, texts, data and stacks.
pub fn pieces_stand_apart()
    ensures { PiecesStandApart }
{}
