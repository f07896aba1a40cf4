ghost use Rattle.std.specs.Prelude.{◌≡◌};
ghost use Rattle.nx_space.specs.Starts.{regs_with};

use nx_base::Regs;

/// The registers at the start of a thread: all are 0 but ra with a stub, sp with the stack's end and tp
/// with its lowest address.
pub fn regs_with(stub: u32, low: u32, high: u32, entry: u32) -> Regs
    ensures { result ≡ regs_with stub low high entry }
{
    let mut x = [0; 32];
    x[1] = stub;
    x[2] = high;
    x[4] = low;
    Regs { x, pc: entry }
}
