ghost use Rattle.std.specs.Prelude.{◌≡◌, ◌<◌};
ghost use Rattle.nx_base.specs.Registers.{reg, with_reg};

/// 32 registers and the address of the next instruction. Register 0 reads as 0 whatever its place
/// in `x` holds. RISC-V Unprivileged ISA, RV32I 2.1 section 2.1.
#[derive(Clone, Copy, Debug)]
pub struct Regs {
    /// What each register holds, except that register 0 is 0.
    pub x: [u32; 32],
    /// The address of the next instruction.
    pub pc: u32,
}

impl Regs {
    /// What register `k` holds.
    #[tactic(auto, unfolding(crate::specs::Registers::reg))]
    pub fn get(&self, k: u8) -> u32
        requires { k < 32 }
        ensures { result ≡ reg self.now k }
    {
        if k == 0 { 0 } else { self.x[k as usize] }
    }

    /// Writes register `k`. A write to register 0 changes nothing.
    #[tactic(auto, unfolding(crate::specs::Registers::with_reg))]
    pub fn set(&mut self, k: u8, value: u32)
        requires { k < 32 }
        ensures { self.new ≡ with_reg self.old k value }
    {
        if k != 0 {
            self.x[k as usize] = value;
        }
    }
}
