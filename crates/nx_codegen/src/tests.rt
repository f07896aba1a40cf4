ghost use Rattle.std.specs.Prelude.{[], IfOk, ◌≡◌};

use super::*;
use nx_slot::{Binary, Comparison, Operand, Section, SlotFunction, SlotOp, StaticObject, Width};
use sqlite_items::Items;
use std::alloc::{AllocError, Global};
use std::test::Fail;

fn function(
    alloc: Global,
    size: u32,
    given: usize,
    kept: usize,
    list: &[SlotOp],
) -> Result<SlotFunction, AllocError>
    ensures { IfOk result (λ g. g ≡ record { frame = size; params = given; locals = given; temporaries = kept; arrays = []; ops = list.now }) }
{
    Ok(SlotFunction {
        frame: size,
        params: given,
        locals: given,
        temporaries: kept,
        arrays: Items::new(alloc),
        ops: Items::from_slice(alloc, list)?,
    })
}

// The words are clang's, for riscv32 with the extension M.
#[test]
fn a_function_that_gives_a_number(rt: HostRuntime) -> Result<(), Fail> {
    let alloc = rt.alloc();
    let g = function(
        alloc,
        16,
        0,
        1,
        &[SlotOp::Give {
            value: Operand::Number(5),
        }],
    )?;
    let emitted = emit(alloc, &g)?;
    let wanted = [
        0x00019463, 0x00010193, 0xFF010113, 0x00417863, 0x402185B3, 0x00000513, 0x00000073,
        0x00112023, 0x00500513, 0x00012083, 0x01010113, 0x00008067,
    ];
    assert!(rt; emitted.words.as_slice() == wanted.as_slice());
    assert_eq!(rt; emitted.refs.len(), 0);
    Ok(())
}

#[test]
fn a_loop_and_a_call(rt: HostRuntime) -> Result<(), Fail> {
    let alloc = rt.alloc();
    let object = StaticObject {
        name: 0,
        section: Section::Global(4),
    };
    let ops = [
        SlotOp::Static { to: 1, object },
        SlotOp::Load {
            to: 1,
            place: 1,
            width: Width::Byte,
        },
        SlotOp::Apply {
            op: Binary::Subtract,
            to: 1,
            left: 1,
            right: Operand::Number(1),
        },
        SlotOp::SkipUnless {
            test: Comparison::Less,
            left: 1,
            right: Operand::Number(0),
            past: 1,
        },
        SlotOp::Back { by: 2 },
        SlotOp::Go {
            function: 3,
            first: 1,
            count: 1,
        },
        SlotOp::Give {
            value: Operand::Cell(1),
        },
    ];
    let g = function(alloc, 32, 1, 2, &ops)?;
    let emitted = emit(alloc, &g)?;
    let wanted = [
        0x00019463, 0x00010193, 0xFE010113, 0x00417863, 0x402185B3, 0x00000513, 0x00000073,
        0x00112023, 0x00A12623, 0x00000937, 0x00090913, 0x00094903, 0xFFF90913, 0x00095463,
        0xFF9FF06F, 0x00090513, 0x000000B7, 0x000080E7, 0x00050913, 0x00090513, 0x00012083,
        0x02010113, 0x00008067,
    ];
    assert!(rt; emitted.words.as_slice() == wanted.as_slice());
    let refs = [
        Ref {
            at: 9,
            target: Target::Global(4),
        },
        Ref {
            at: 16,
            target: Target::Function(3),
        },
    ];
    assert!(rt; emitted.refs.as_slice() == refs.as_slice());
    Ok(())
}
