ghost use Rattle.std.specs.Prelude.{◌≡◌};
ghost use Rattle.nx_pool.specs.Chains.{length_of};

/// Bytes that a block store keeps, by the handle with which their holder names them to it. The
/// default chain has no byte and no block, and belongs to any store.
#[derive(Debug, Default, Drop)]
pub struct Chain {
    /// The first block. It means nothing where there is no byte.
    pub(crate) first: u32,
    pub(crate) bytes: u32,
}

impl Chain {
    /// How many bytes it has.
    pub fn bytes(&self) -> u32
        ensures { result ≡ length_of self.now }
    {
        self.bytes
    }
}
