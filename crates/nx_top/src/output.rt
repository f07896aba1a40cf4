ghost use Rattle.std.specs.Prelude.{◌≡◌, ◌++◌, OnOk, OnErr};
ghost use Rattle.std.specs.List.{flat_map};
ghost use Rattle.nx_outside.specs.Outside.{Wrote, Puts, HasCause};
ghost use Rattle.nx_top.specs.Promises.{FailsIn};

use nx_base::Bytes;
use nx_outside::{Sink, SinkFail};

// Puts a piece.
fn put_one<S: Sink>(out: &mut S, piece: &Bytes) -> Result<(), SinkFail>
    ensures puts { Puts result (S.told out.old) (S.told out.new) piece.now }
    ensures cause { HasCause (S.faults out.old) (S.faults out.new) result }
{
    out.put(piece.as_slice())
}

/// Puts the pieces one by one, up to the first that fails.
pub fn put_all<S: Sink>(out: &mut S, pieces: &[Bytes]) -> Result<(), SinkFail>
    ensures whole { OnOk result (Wrote (S.told out.old) (S.told out.new) (flat_map (λ p. p) pieces.now)) }
    ensures cut { OnErr result (FailsIn (flat_map (λ p. p) pieces.now) (S.told out.old) (S.told out.new) (S.faults out.old) (S.faults out.new)) }
{
    for piece in pieces {
        match put_one(out, piece) {
            Ok(()) => {}
            Err(stop) => return Err(stop),
        }
    }
    Ok(())
}
