/// The three memory configurations: one image without a boundary, a kernel and a user part that
/// PMP divides, one Sv32 address space for each task group.
#[derive(Clone, Copy, Debug, PartialEq, Eq)]
pub enum Build {
    /// One image without a boundary.
    Flat,
    /// A kernel part and a user part, which PMP divides.
    Protected,
    /// One Sv32 address space for each task group.
    Kernel,
}
