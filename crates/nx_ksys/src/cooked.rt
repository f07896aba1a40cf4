ghost use Rattle.std.specs.Prelude.{◌≡◌, [], IfOk, None, replicate};

use crate::moved_bytes::MovedBytes;
use nx_base::{KCall, OutOfMemory};
use std::alloc::Global;

/// A call whose inputs were taken from the caller's view.
#[derive(Debug, Drop)]
pub struct Cooked {
    /// Which call, if the kernel has it.
    pub call: Option<KCall>,
    /// The words of its parameters, in their order; 0 past them.
    pub words: [u32; 6],
    /// The bytes of its first input.
    pub first: MovedBytes,
    /// The bytes of its second input.
    pub second: MovedBytes,
}

impl Cooked {
    /// No call, with room for both inputs.
    pub fn new(alloc: Global) -> Result<Cooked, OutOfMemory>
        ensures call { IfOk result (λ c. c.call ≡ None) }
        ensures words { IfOk result (λ c. c.words ≡ replicate 6 0) }
        ensures inputs { IfOk result (λ c. (c.first ≡ []) × (c.second ≡ [])) }
    {
        Ok(Cooked {
            call: None,
            words: [0; 6],
            first: MovedBytes::new(alloc)?,
            second: MovedBytes::new(alloc)?,
        })
    }
}
