// Where variables, arrays and texts of a file stand, and the operations that read and write variables.

ghost use Rattle.std.specs.Prelude.{◌≡◌, ◌<◌, ◌*◌, ◌^◌, ◌∷◌, ◌++◌, take, sum, map, length, get_or, IfOk, OnOk, MatchOption};
ghost use Rattle.nx_checked.specs.Frames.{bytes_of, array_bytes as bytes_of_arrays};
ghost use Rattle.nx_checked.specs.Trees.{fun_of, program_of};
ghost use Rattle.nx_cmean.specs.Meaning.{fun_at, no_fun};
ghost use Rattle.nx_lower.specs.Code.{array_object, text_object, number_of, write_code, read_code, array_code, arguments_code};
ghost use Rattle.nx_lowerexpr.specs.Sources.{shape_of, source_of};

use crate::code::Code;
use crate::operations::put_kept;
use nx_base::Bytes;
use nx_checked::{ArrayName, Cell, Checked, CheckedFunction, Element, GlobalArray, Scalar, Shape};
use nx_slot::{Operand, Section, SlotOp, StaticObject};
use std::alloc::AllocError;

// Where the word of a variable of the file stands. Out of memory where that is past all addresses.
fn word_at(i: u32) -> Result<u32, AllocError>
    ensures { IfOk result (λ n. n ≡ 4 * i) }
{
    if i > 0x3fffffff {
        return Err(AllocError);
    }
    Ok(4 * i)
}

// The bytes of the first arrays, each rounded up to words. Out of memory where they are past all addresses.
fn first_arrays(arrays: &[GlobalArray], i: u32) -> Result<u32, AllocError>
    ensures { IfOk result (λ n. n ≡ bytes_of_arrays (take i (map shape_of arrays.now))) }
{
    if i == 0 {
        return Ok(0);
    }
    match arrays {
        [] => Ok(0),
        [a, rest @ ..] => {
            let more = first_arrays(rest, i - 1)?;
            let size = 4 * ((array_bytes(a.shape) + 3) / 4) + more as u64;
            if size > 0xffffffff {
                return Err(AllocError);
            }
            Ok(size as u32)
        }
    }
}

/// How many bytes an array of this shape has.
pub fn array_bytes(shape: Shape) -> u64
    ensures is { result ≡ bytes_of shape }
    ensures small { result < 2 ^ 34 }
{
    match shape.element {
        Element::Int => shape.count as u64 * 4,
        Element::Char => shape.count as u64,
    }
}

fn first_texts(texts: &[Bytes], i: u32) -> Result<u32, AllocError>
    ensures { IfOk result (λ n. n ≡ sum (take i (map length texts.now))) }
{
    if i == 0 {
        return Ok(0);
    }
    match texts {
        [] => Ok(0),
        [t, rest @ ..] => {
            let more = first_texts(rest, i - 1)?;
            let size = t.len();
            if size > (0xffffffff - more) as usize {
                return Err(AllocError);
            }
            Ok(size as u32 + more)
        }
    }
}

pub fn array_static(program: &Checked, i: u32) -> Result<StaticObject, AllocError>
    ensures { IfOk result (λ o. o ≡ array_object (source_of program.now) i) }
{
    let scalars = program.scalars.len();
    let more = first_arrays(program.arrays.as_slice(), i)?;
    if scalars > 0x3fffffff {
        return Err(AllocError);
    }
    let at = 4 * scalars + more as usize;
    if at > 0xffffffff {
        return Err(AllocError);
    }
    Ok(StaticObject {
        name: scalars + i as usize,
        section: Section::Global(at as u32),
    })
}

pub fn text_static(program: &Checked, i: u32) -> Result<StaticObject, AllocError>
    ensures { IfOk result (λ o. o ≡ text_object (source_of program.now) i) }
{
    let scalars = program.scalars.len();
    let arrays = program.arrays.len();
    if scalars > 0x3fffffff || arrays > 0x3fffffff {
        return Err(AllocError);
    }
    let at = first_texts(program.literals.as_slice(), i)?;
    Ok(StaticObject {
        name: scalars + (arrays + i as usize),
        section: Section::Literal(at),
    })
}

pub fn put_array(
    code: &mut Code,
    program: &Checked,
    a: ArrayName,
    i: usize,
) -> Result<(), AllocError>
    ensures { OnOk result (code.new ≡ array_code (source_of program.now) a i ∷ code.old) }
{
    match a {
        ArrayName::Local(a) => code.put(SlotOp::Local {
            to: i,
            array: a as usize,
        }),
        ArrayName::Global(a) => {
            let object = array_static(program, a)?;
            code.put(SlotOp::Static { to: i, object })
        }
    }
}

/// The number of a call that the program names.
pub fn call_at(program: &Checked, n: u32) -> u16
    ensures { result ≡ number_of (source_of program.now) n }
{
    match program.calls.get(n as usize) {
        None => 0,
        Some(c) => c.number,
    }
}

// The function at a place.
fn function_at(functions: &[CheckedFunction], place: usize) -> Option<&CheckedFunction>
    ensures { MatchOption result (get_or (map fun_of functions.now) place no_fun ≡ no_fun) (λ f. get_or (map fun_of functions.now) place no_fun ≡ fun_of f.now) }
{
    match functions.get(place) {
        None => None,
        Some(f) => Some(f),
    }
}

fn put_params(code: &mut Code, params: &[Scalar], i: usize) -> Result<(), AllocError>
    ensures { OnOk result (code.new ≡ arguments_code params.now i ++ code.old) }
{
    match params {
        [] => Ok(()),
        [s, rest @ ..] => {
            if i > 0xffffffff {
                return Err(AllocError);
            }
            put_params(code, rest, i + 1)?;
            put_kept(code, *s, i)
        }
    }
}

/// What parameters of a function keep of arguments.
pub fn put_arguments(code: &mut Code, program: &Checked, f: u32, i: usize) -> Result<(), AllocError>
    ensures { OnOk result (code.new ≡ arguments_code (fun_at (program_of program.now) f).params i ++ code.old) }
{
    match function_at(program.functions.as_slice(), f as usize) {
        None => Ok(()),
        Some(g) => put_params(code, g.params.as_slice(), i),
    }
}

pub fn put_read(code: &mut Code, program: &Checked, x: Cell, i: usize) -> Result<(), AllocError>
    ensures { OnOk result (code.new ≡ read_code (source_of program.now) x i ∷ code.old) }
{
    match x {
        Cell::Local(x) => code.put(SlotOp::Move {
            to: i,
            from: Operand::Cell(x as usize),
        }),
        Cell::Global(x) => {
            let at = word_at(x)?;
            code.put(SlotOp::Fetch {
                to: i,
                object: StaticObject {
                    name: x as usize,
                    section: Section::Global(at),
                },
            })
        }
    }
}

pub fn put_write(code: &mut Code, program: &Checked, x: Cell, i: usize) -> Result<(), AllocError>
    ensures { OnOk result (code.new ≡ write_code (source_of program.now) x i ∷ code.old) }
{
    match x {
        Cell::Local(x) => code.put(SlotOp::Move {
            to: x as usize,
            from: Operand::Cell(i),
        }),
        Cell::Global(x) => {
            let at = word_at(x)?;
            code.put(SlotOp::Keep {
                object: StaticObject {
                    name: x as usize,
                    section: Section::Global(at),
                },
                from: i,
            })
        }
    }
}
