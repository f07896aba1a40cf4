//! Where cells and arrays stand in a function's frame.
ghost use Rattle.std.specs.Prelude.{◌≡◌, ◌^◌, ◌≤◌, true, length};
ghost use Rattle.nx_codegen.specs.Cells.{IsCell};
ghost use Rattle.nx_codegen.specs.Frames.{IsFunction, array_at, array_from, cell_at, in_register, register_of, rounded, words_end};

use nx_slot::{SlotArray, SlotFunction};

/// Whether a register holds a cell.
#[tactic(auto, unfolding(crate::specs::Frames::in_register), using(crate::proofs::Bounds::words_small))]
pub fn is_in_register(function: &SlotFunction, cell: usize) -> bool
    requires framed { IsFunction function.now }
    requires cell_there { IsCell function.now cell }
    ensures { result ≡ in_register function.now cell }
{
    function.locals <= cell && cell < function.locals + 8
}

/// The register of a cell that is in one.
#[tactic(auto, unfolding(crate::specs::Frames::register_of, crate::specs::Frames::in_register))]
pub fn register(function: &SlotFunction, cell: usize) -> u8
    requires { in_register function.now cell ≡ true }
    ensures { result ≡ register_of function.now cell }
{
    18 + (cell - function.locals) as u8
}

/// How many bytes above the stack pointer a cell's word stands.
#[tactic(auto, unfolding(crate::specs::Frames::cell_at), using(crate::proofs::Bounds::words_small))]
pub fn cell_place(function: &SlotFunction, cell: usize) -> u32
    requires framed { IsFunction function.now }
    requires cell_there { IsCell function.now cell }
    ensures { result ≡ cell_at function.now cell }
{
    if cell < function.locals {
        4 * (1 + function.temporaries as u32 + cell as u32)
    } else {
        4 * (1 + (cell - function.locals) as u32)
    }
}

/// The bytes of whole words that an array takes.
#[tactic(auto, unfolding(crate::specs::Frames::rounded))]
pub fn rounded_bytes(array: &SlotArray) -> u32
    requires { array.now.bytes ≤ 2 ^ 20 }
    ensures { result ≡ rounded array.now.bytes }
{
    (array.bytes as u32 + 3) / 4 * 4
}

/// Where the array of a number stands whose first stands here; past the last, where they end.
#[tactic(auto, using(crate::proofs::Bounds::array_up, crate::proofs::Bounds::bytes_small))]
fn array_from_here(arrays: &[SlotArray], here: u32, number: usize) -> u32
    requires { array_from arrays.now here (length arrays.now) ≤ 2 ^ 20 }
    ensures { result ≡ array_from arrays.now here number }
{
    match arrays {
        [] => here,
        [first, rest @ ..] => {
            if number == 0 {
                here
            } else {
                array_from_here(rest, here + rounded_bytes(first), number - 1)
            }
        }
    }
}

/// How many bytes above the stack pointer an array of the function stands.
#[tactic(auto, unfolding(crate::specs::Frames::array_at, crate::specs::Frames::words_end), using(crate::proofs::Bounds::words_small))]
pub fn array_place(function: &SlotFunction, number: usize) -> u32
    requires framed { IsFunction function.now }
    ensures { result ≡ array_at function.now number }
{
    let words = 4 * (1 + function.temporaries as u32 + function.locals as u32);
    array_from_here(function.arrays.as_slice(), words, number)
}
