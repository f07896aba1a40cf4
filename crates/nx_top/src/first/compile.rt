// nx_lower and nx_codegen will take its place.

ghost use Rattle.std.specs.Prelude.{◌≡◌, ◌+◌, ◌-◌, ◌*◌, ◌%◌, ◌<◌, ◌≤◌, ◌^◌, ◌++◌, [], ◌∷◌, length, ℕ, All, pos, ◌-ℤ◌, OnOk, IfOk};
ghost use Rattle.std.specs.List.{flat_map};
ghost use Rattle.nx_base.specs.ByteLists.{to_le};
ghost use Rattle.nx_rv.specs.Table.{encode_of, IsInRange};
ghost use Rattle.nx_rv.specs.Formats.{IsWithin};
ghost use Rattle.nx_top.specs.first.Compiled.{upper, lower, proxy_at, addi, stub, write_proxy, IsWriteGate, proxies, write_code, writes_code, main_at, literals_at, main_code, insts_of, code_bytes, literals, padded, text_of};
ghost use Rattle.nx_top.specs.first.Layout.{text_start};

use crate::first::layout::TEXT_START;
use nx_base::{AluOp, Bytes};
use nx_gate::{Gate, proxy};
use nx_rv::{Inst, encode};
use std::alloc::{AllocError, Global};

const PROXY_AT: u32 = TEXT_START + 24;

fn addi(rd: u8, rs1: u8, imm: i32) -> Inst
    ensures { result ≡ addi rd rs1 imm }
{
    Inst::OpImm {
        op: AluOp::Add,
        rd,
        rs1,
        imm,
    }
}

// The multiple of 4096 that LUI gives for an address.
#[tactic(auto, unfolding(crate::specs::first::Compiled::upper))]
fn upper(at: u32) -> u32
    requires { at + 2048 < 2 ^ 32 }
    ensures value { result ≡ upper at }
    ensures page { result % 4096 ≡ 0 }
{
    (at + 2048) / 4096 * 4096
}

// What ADDI adds to it.
#[tactic(auto, unfolding(crate::specs::first::Compiled::upper, crate::specs::first::Compiled::lower))]
fn lower(at: u32) -> i32
    requires { at + 2048 < 2 ^ 32 }
    ensures value { result ≡ lower at }
    ensures within { IsWithin 2048 result }
{
    let low = (at % 4096) as i32;
    if low < 2048 { low } else { low - 4096 }
}

// The call of the proxy, four instructions after an address.
fn call_proxy(here: u32) -> Inst
    requires after { proxy_at ≤ here }
    requires near { here < proxy_at + 65536 }
    ensures value { result ≡ Inst.Jal 1 (pos proxy_at -ℤ pos (here + 16)) }
    ensures in_range { here % 4 ≡ 0 → IsInRange result }
{
    let back = (here + 16 - PROXY_AT) as i32;
    Inst::Jal {
        rd: 1,
        offset: -back,
    }
}

// Puts an instruction's word after the code.
fn put(code: &mut Bytes, inst: Inst) -> Result<(), AllocError>
    requires { IsInRange inst }
    ensures { OnOk result (code.new ≡ code.old ++ to_le 4 (encode_of inst)) }
{
    code.append_le32(encode(&inst))
}

#[tactic(auto, unfolding(crate::specs::first::Compiled::stub, crate::specs::first::Compiled::code_bytes))]
fn put_stub(code: &mut Bytes, number: u8) -> Result<(), AllocError>
    ensures { OnOk result (code.new ≡ code.old ++ code_bytes (stub number)) }
{
    put(code, addi(11, 10, 0))?;
    put(code, addi(10, 0, number as i32))?;
    put(code, Inst::Ecall)
}

// Puts words after the code.
fn put_words(code: &mut Bytes, words: &[u32]) -> Result<(), AllocError>
    ensures { OnOk result (code.new ≡ code.old ++ flat_map (λ w. to_le 4 w) words.now) }
{
    for word in words {
        code.append_le32(*word)?;
    }
    Ok(())
}

// Puts the proxy of write.
fn put_write_proxy(code: &mut Bytes, gate: &Gate) -> Result<(), AllocError>
    requires { IsWriteGate gate.now }
    ensures { OnOk result (code.new ≡ code.old ++ code_bytes write_proxy) }
{
    let words = proxy(gate);
    put_words(code, words.as_slice())?;
    Ok(())
}

#[tactic(auto, unfolding(crate::specs::first::Compiled::write_code, crate::specs::first::Compiled::code_bytes))]
fn put_write(code: &mut Bytes, here: u32, literal: u32, count: u32) -> Result<(), AllocError>
    requires here { (proxy_at ≤ here) × (here < proxy_at + 65536) × (here % 4 ≡ 0) }
    requires literal { literal + 2048 < 2 ^ 32 }
    requires count { count < 2048 }
    ensures { OnOk result (code.new ≡ code.old ++ code_bytes (write_code here literal count)) }
{
    put(code, addi(10, 0, 1))?;
    put(
        code,
        Inst::Lui {
            rd: 11,
            imm: upper(literal),
        },
    )?;
    put(code, addi(11, 11, lower(literal)))?;
    put(code, addi(12, 0, count as i32))?;
    put(code, call_proxy(here))
}

// The writes of strings, whose literals stand one after the other.
fn put_writes(
    code: &mut Bytes,
    mut here: u32,
    mut literal: u32,
    strings: &[Bytes],
) -> Result<(), AllocError>
    requires few { length strings.now ≤ 16 }
    requires short { All (λ s. length s ≤ 255) strings.now }
    requires here { (proxy_at ≤ here) × (here < proxy_at + 4096) × (here % 4 ≡ 0) }
    requires literal { literal + 8192 < 2 ^ 32 }
    ensures { OnOk result (code.new ≡ code.old ++ code_bytes (writes_code here literal strings.now)) }
{
    for string in strings {
        put_write(code, here, literal, string.len() as u32)?;
        here += 20;
        literal += string.len() as u32 + 1;
    }
    Ok(())
}

#[tactic(auto, unfolding(crate::specs::first::Compiled::literals))]
fn put_literals(text: &mut Bytes, strings: &[Bytes]) -> Result<(), AllocError>
    ensures { OnOk result (text.new ≡ text.old ++ literals strings.now) }
{
    for string in strings {
        text.append(string.as_slice())?;
        text.push(0)?;
    }
    Ok(())
}

#[tactic(auto, unfolding(crate::specs::first::Compiled::proxies, crate::specs::first::Compiled::code_bytes))]
fn put_proxies(code: &mut Bytes, gate: &Gate, strings: &[Bytes]) -> Result<(), AllocError>
    requires { IsWriteGate gate.now }
    ensures { OnOk result (code.new ≡ code.old ++ code_bytes (proxies strings.now)) }
{
    match strings {
        [] => Ok(()),
        [_, ..] => put_write_proxy(code, gate),
    }
}

/// The address of the main function.
#[tactic(auto, unfolding(crate::specs::first::Compiled::main_at, crate::specs::first::Compiled::proxies, crate::specs::first::Compiled::write_proxy, nx_gate::specs::Proxies::proxy_of))]
pub fn main_at(strings: &[Bytes]) -> u32
    ensures value { (status : ℕ) → result ≡ main_at (record { writes = strings.now; status = status }) }
    ensures bounds { (proxy_at ≤ result) × (result ≤ proxy_at + 24) × (result % 4 ≡ 0) }
{
    match strings {
        [] => PROXY_AT,
        [_, ..] => PROXY_AT + 24,
    }
}

#[tactic(auto, unfolding(crate::specs::first::Compiled::main_code, crate::specs::first::Compiled::literals_at), using(crate::proofs::first_path::CodeLemmas::main_parts))]
fn put_main(code: &mut Bytes, strings: &[Bytes], status: u8) -> Result<(), AllocError>
    requires few { length strings.now ≤ 16 }
    requires short { All (λ s. length s ≤ 255) strings.now }
    ensures { OnOk result (code.new ≡ code.old ++ code_bytes (main_code (record { writes = strings.now; status = status }))) }
{
    let at = main_at(strings);
    let literals = at + 4 * (5 * strings.len() as u32 + 3);
    put(code, addi(8, 1, 0))?;
    put_writes(code, at + 4, literals, strings)?;
    put(code, addi(10, 0, status as i32))?;
    put(
        code,
        Inst::Jalr {
            rd: 0,
            rs1: 8,
            imm: 0,
        },
    )
}

// Puts zeros after the text, up to a multiple of 16.
#[tactic(auto, unfolding(crate::specs::first::Compiled::padded))]
fn pad(alloc: Global, text: &mut Bytes) -> Result<(), AllocError>
    ensures { OnOk result (text.new ≡ padded text.old) }
{
    let zeros = (16 - text.len() % 16) % 16;
    text.append_zeros(alloc, zeros)
}

/// The text of a program that writes strings and returns a status.
#[tactic(auto, unfolding(crate::specs::first::Compiled::insts_of, crate::specs::first::Compiled::text_of), using(crate::proofs::first_path::CodeLemmas::text_parts))]
pub fn compile(
    alloc: Global,
    gate: &Gate,
    strings: &[Bytes],
    status: u8,
) -> Result<Bytes, AllocError>
    requires gate { IsWriteGate gate.now }
    requires few { length strings.now ≤ 16 }
    requires short { All (λ s. length s ≤ 255) strings.now }
    ensures { IfOk result (λ text. text ≡ text_of (record { writes = strings.now; status = status })) }
{
    let mut text = Bytes::new(alloc);
    put_stub(&mut text, 1)?;
    put_stub(&mut text, 2)?;
    put_proxies(&mut text, gate, strings)?;
    put_main(&mut text, strings, status)?;
    put_literals(&mut text, strings)?;
    pad(alloc, &mut text)?;
    Ok(text)
}
