// nx_build will take its place.

ghost use Rattle.std.specs.Prelude.{ℕ, ◌+◌, ◌*◌, length};
ghost use Rattle.nx_ram.specs.declared.prog_image.ProgImage.{ProgImage};
ghost use Rattle.nx_top.specs.first.Program.{Program};
ghost use Rattle.nx_top.specs.first.BootedRuns.{Keeps};
ghost use Rattle.nx_top.specs.first.IsCompiled.{FitsText, IsCompiled};

/// The words of a compiled program keep it: over every booted RAM the instruction table makes
/// exactly the program's writes and then its end, 11 instructions for each write and 6 others.
pub fn words_keep_the_program()
    ensures { (p : Program) (image : ProgImage) → FitsText p → IsCompiled image p → Keeps image p (6 + 11 * length p.writes) }
{}
