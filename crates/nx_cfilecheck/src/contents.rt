ghost use Rattle.std.specs.Prelude.{◌≡◌, ◌++◌, ◌≤◌, ◌<◌, ◌^◌, OnOk, IfOk, length};
ghost use Rattle.nx_checked.specs.Frames.{bytes_of};
ghost use Rattle.nx_ccheck.specs.Globals.{
  element_bytes,
  elements_bytes,
  is_text_for as is_text_for_array,
  fits as fits_shape,
  contents as contents_of,
  filled as filled_to,
};

use nx_base::Bytes;
use nx_cdeclcheck::constant_of;
use nx_cframes::array_bytes;
use nx_checked::{Element, Shape};
use nx_ctree::{Constant, Initialiser};
use std::alloc::{AllocError, Global};

/// Puts the bytes of an element behind those before it.
fn push_element(bytes: &mut Bytes, element: Element, value: u32) -> Result<(), AllocError>
    ensures { OnOk result (bytes.new ≡ bytes.old ++ element_bytes element value) }
{
    match element {
        Element::Int => bytes.append_le32(value),
        Element::Char => bytes.push((value % 256) as u8),
    }
}

fn push_elements(
    bytes: &mut Bytes,
    element: Element,
    constants: &[Constant],
) -> Result<(), AllocError>
    ensures { OnOk result (bytes.new ≡ bytes.old ++ elements_bytes element constants.now) }
{
    for constant in constants {
        push_element(bytes, element, constant_of(&constant.kind))?;
    }
    Ok(())
}

/// The bytes that are given for an array.
fn contents(
    alloc: Global,
    element: Element,
    initialiser: &Option<Initialiser>,
) -> Result<Bytes, AllocError>
    ensures { IfOk result (λ bs. bs ≡ contents_of element initialiser.now) }
{
    match initialiser {
        None => Ok(Bytes::new(alloc)),
        Some(Initialiser::Text(text)) => Bytes::from_slice(alloc, text.as_slice()),
        Some(Initialiser::Listed(constants)) => {
            let mut bytes = Bytes::new(alloc);
            push_elements(&mut bytes, element, constants.as_slice())?;
            Ok(bytes)
        }
    }
}

/// Bytes, with zeros behind them.
fn filled(alloc: Global, count: usize, bytes: Bytes) -> Result<Bytes, AllocError>
    ensures { IfOk result (λ bs. bs ≡ filled_to count bytes) }
{
    let mut bytes = bytes;
    let zeros = count.saturating_sub(bytes.len());
    bytes.append_zeros(alloc, zeros)?;
    Ok(bytes)
}

/// An array's first bytes.
pub(crate) fn first_bytes(
    alloc: Global,
    shape: Shape,
    initialiser: &Option<Initialiser>,
) -> Result<Bytes, AllocError>
    ensures { IfOk result (λ bs. bs ≡ filled_to (bytes_of shape) (contents_of shape.element initialiser.now)) }
{
    let given = contents(alloc, shape.element, initialiser)?;
    filled(alloc, array_bytes(shape) as usize, given)
}

fn is_text_for(element: Element) -> bool
    ensures { result ≡ is_text_for_array element }
{
    match element {
        Element::Char => true,
        Element::Int => false,
    }
}

/// Whether an array takes its first contents: a text is for chars alone and no longer than it, and
/// there are no more constants than elements.
pub(crate) fn fits(shape: Shape, initialiser: &Option<Initialiser>) -> bool
    ensures { result ≡ fits_shape shape initialiser.now }
{
    match initialiser {
        None => true,
        Some(Initialiser::Text(text)) => {
            is_text_for(shape.element) && text.len() <= shape.count as usize
        }
        Some(Initialiser::Listed(constants)) => constants.len() <= shape.count as usize,
    }
}
