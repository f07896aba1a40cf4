ghost use Rattle.nx_shell.specs.Bytes.{CallsAreBytes};

/// A law: where the words of a script are bytes, and each reply fits its call, all inputs of the
/// shell's calls are bytes.
#[tactic(auto, using(crate::proofs::ByteRuns::script_bytes))]
pub fn the_shell_passes_bytes()
    ensures { CallsAreBytes }
{}
