ghost use Rattle.std.specs.Prelude.{◌≡◌, ◌==◌, ◌<◌, ◌≤◌, length, IfOk, IfErr, Ok, false};
ghost use Rattle.std.specs.List.{list_any};
ghost use Rattle.nx_config.specs.Line.{is_name as is_a_name, value_of, text_or, number_or, assigned, unset, trimmed_says, says, IsReadAs};
ghost use Rattle.nx_config.specs.Numbers.{integer_of};
ghost use Rattle.nx_config.specs.Quoted.{quoted};

use crate::fault::{ConfigKind, Stop};
use crate::number::integer;
use crate::quoted::quoted_text;
use crate::value::{Assignment, Value};
use nx_base::{Bytes, are_word_bytes, cut, trimmed};
use std::alloc::Global;

fn is_name(bytes: &[u8]) -> bool
    ensures { result ≡ is_a_name bytes.now }
{
    !bytes.is_empty() && are_word_bytes(bytes)
}

fn has_equals(bytes: &[u8]) -> bool
    ensures { result ≡ list_any (λ b. b == 61) bytes.now }
{
    bytes.contains(&b'=')
}

#[tactic(auto, unfolding(crate::specs::Line::value_of))]
fn value(alloc: Global, text: &[u8]) -> Result<Option<Value>, Stop>
    ensures { IsReadAs result (value_of text.now) }
{
    match text {
        [] => Ok(Some(Value::Text(Bytes::new(alloc)))),
        b"y" => Ok(Some(Value::Yes)),
        b"n" => Ok(None),
        [b'"', rest @ ..] => text_value(alloc, rest),
        _ => number_value(text),
    }
}

fn text_value(alloc: Global, rest: &[u8]) -> Result<Option<Value>, Stop>
    ensures { IsReadAs result (text_or (quoted false rest.now)) }
{
    match quoted_text(alloc, rest) {
        Ok(Some(text)) => Ok(Some(Value::Text(text))),
        Ok(None) => Err(Stop::Fault(ConfigKind::BadLine)),
        Err(_) => Err(Stop::Memory),
    }
}

fn number_value(text: &[u8]) -> Result<Option<Value>, Stop>
    ensures { IsReadAs result (number_or (integer_of text.now)) }
{
    match integer(text) {
        Ok(number) => Ok(Some(Value::Number(number))),
        Err(kind) => Err(Stop::Fault(kind)),
    }
}

fn name_of(alloc: Global, name: &[u8]) -> Result<Bytes, Stop>
    ensures value { IfOk result (λ n. n ≡ name.now) }
    ensures memory { IfErr result (λ e. e ≡ Stop.Memory) }
{
    Bytes::from_slice(alloc, name).map_err(|_| Stop::Memory)
}

#[tactic(auto, unfolding(crate::specs::Line::assigned))]
fn assignment(alloc: Global, line: &[u8]) -> Result<Option<Assignment>, Stop>
    ensures { IsReadAs result (assigned line.now) }
{
    let (name, text) = cut(line, b'=');
    if !has_equals(line) || !is_name(name) {
        return Err(Stop::Fault(ConfigKind::BadLine));
    }
    let value = value(alloc, text)?;
    let name = name_of(alloc, name)?;
    Ok(Some(Assignment { name, value }))
}

#[tactic(auto, unfolding(crate::specs::Line::unset))]
fn comment(alloc: Global, rest: &[u8]) -> Result<Option<Assignment>, Stop>
    ensures { IsReadAs result (Ok (unset rest.now)) }
{
    let [b' ', text @ ..] = rest else {
        return Ok(None);
    };
    let (name, rest) = cut(text, b' ');
    if !is_name(name) || rest != b"is not set".as_slice() {
        return Ok(None);
    }
    let name = name_of(alloc, name)?;
    Ok(Some(Assignment { name, value: None }))
}

#[tactic(auto, unfolding(crate::specs::Line::trimmed_says))]
fn trimmed_line(alloc: Global, line: &[u8]) -> Result<Option<Assignment>, Stop>
    ensures { IsReadAs result (trimmed_says line.now) }
{
    match line {
        [] => Ok(None),
        [b'#', rest @ ..] => comment(alloc, rest),
        _ => assignment(alloc, line),
    }
}

/// What a line says.
pub fn read_line(alloc: Global, line: &[u8]) -> Result<Option<Assignment>, Stop>
    ensures { IsReadAs result (says line.now) }
{
    trimmed_line(alloc, trimmed(line))
}
