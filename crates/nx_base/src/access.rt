/// What an access to memory is for.
#[derive(Clone, Copy, Debug, PartialEq, Eq)]
pub enum Access {
    /// To execute an instruction.
    Fetch,
    /// To read a number.
    Load,
    /// To write a number.
    Store,
}

/// The privilege of an access. RISC-V Privileged Architecture 1.12, section 1.2.
#[derive(Clone, Copy, Debug, PartialEq, Eq)]
pub enum Mode {
    /// The lowest privilege: programs, where the build has a boundary.
    User,
    /// The highest privilege.
    Machine,
}
