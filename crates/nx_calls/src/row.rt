ghost use Rattle.std.specs.Prelude.{◌≡◌, ◌≤◌, ◌∷◌, [], IfOk, length, map, codes, option_map};
ghost use Rattle.std.specs.List.{list_any};
ghost use Rattle.nx_calls.specs.Types.{is_union as is_union_field, type_of, is_bad};
ghost use Rattle.nx_calls.specs.Rows.{
  fits as fits_call,
  kinds_in as kinds_in_row,
  numbered as numbered_row,
  typed as typed_row,
  declared_row as declared_row_of,
};
ghost use Rattle.nx_calls.specs.Answers.{IsVerdict};
ghost use Rattle.std.specs.Str.{bytes_eq};

use crate::fault::{CallsKind, RowStop};
use crate::kinds::{has_star, kinds_of};
use crate::types::{CallType, is_union};
use arrayvec::ArrayVec;
use nx_base::{Bytes, KCall, Kind};
use std::alloc::{AllocError, Global};

/// How many rows of a true condition there may be.
pub const ROWS: usize = 512;

/// The number of the first row of a true condition.
const FIRST_NUMBER: u16 = 16;

/// How many parameters a call has at most.
const PARAMETERS: usize = 6;

/// A row of the call table whose condition is true.
#[derive(Debug, Drop)]
pub struct CallRow {
    /// The name of the call, a name of C of at most 64 bytes.
    pub name: Bytes,
    /// 16 plus its place among such rows, from 0.
    pub number: u16,
    /// The kinds of its parameters, in their order.
    pub kinds: ArrayVec<Kind, 6>,
    /// Whether its return type isn't `void`.
    pub returns: bool,
    /// The call of this name, if the kernel has one.
    pub kernel: Option<KCall>,
}

fn any_union(fields: &[&[u8]]) -> bool
    ensures { result ≡ list_any is_union_field (map (λ f. f.now) fields.now) }
{
    for field in fields {
        if is_union(field) {
            return true;
        }
    }
    false
}

fn any_bad(types: &[CallType]) -> bool
    ensures { result ≡ list_any is_bad types.now }
{
    types.iter().any(|t| t.has_empty_part())
}

fn has_name(rows: &[CallRow], name: &[u8]) -> bool
    ensures { result ≡ list_any (λ row. bytes_eq name.now row.name) rows.now }
{
    rows.iter().any(|row| name == row.name.as_slice())
}

#[tactic(auto, unfolding(crate::specs::Rows::fits))]
fn fits(call: KCall, kinds: &[Kind]) -> bool
    ensures { result ≡ fits_call call kinds.now }
{
    match call {
        KCall::Open => {
            kinds == KCall::Open.kinds() || kinds == [Kind::Text, Kind::Word].as_slice()
        }
        other => kinds == other.kinds(),
    }
}

/// The kinds of as many words.
fn words(types: &[CallType]) -> ArrayVec<Kind, 6>
    requires { length types.now ≤ 6 }
    ensures { result.items ≡ map (λ t. Kind.Word) types.now }
{
    let mut kinds = ArrayVec::new();
    for _ in types {
        kinds.push(Kind::Word);
    }
    kinds
}

#[tactic(auto, unfolding(crate::specs::Rows::kinds_in))]
fn kinds_in(
    call: Option<KCall>,
    return_type: &CallType,
    types: &[CallType],
) -> Option<ArrayVec<Kind, 6>>
    requires { length types.now ≤ 6 }
    ensures { option_map (λ kinds. kinds.items) result ≡ kinds_in_row call return_type.now types.now }
{
    match call {
        None => Some(words(types)),
        Some(call) => {
            if has_star(return_type.actual.as_slice()) {
                return None;
            }
            let kinds = kinds_of(types)?;
            if !fits(call, kinds.as_slice()) {
                return None;
            }
            Some(kinds)
        }
    }
}

fn is_void(return_type: &CallType) -> bool
    ensures { result ≡ bytes_eq return_type.now.actual (codes "void") }
{
    return_type.actual.as_slice() == b"void".as_slice()
}

/// A row of these kinds after others.
fn numbered(
    alloc: Global,
    rows: &[CallRow],
    name: &[u8],
    return_type: &CallType,
    kinds: Option<ArrayVec<Kind, 6>>,
) -> Result<Option<CallRow>, RowStop>
    ensures { IsVerdict result (numbered_row rows.now name.now return_type.now (option_map (λ ks. ks.items) kinds)) }
{
    let Some(kinds) = kinds else {
        return Err(RowStop::Fault(CallsKind::Signature));
    };
    if rows.len() >= ROWS {
        return Err(RowStop::Fault(CallsKind::Limit));
    }
    let kernel = KCall::named(name);
    let returns = !is_void(return_type);
    match Bytes::from_slice(alloc, name) {
        Ok(name) => Ok(Some(CallRow {
            name,
            number: FIRST_NUMBER + rows.len() as u16,
            kinds,
            returns,
            kernel,
        })),
        Err(_) => Err(RowStop::Memory),
    }
}

/// A row of these types after others.
#[tactic(auto, unfolding(crate::specs::Rows::typed))]
fn typed(
    alloc: Global,
    rows: &[CallRow],
    name: &[u8],
    return_type: &CallType,
    types: &[CallType],
) -> Result<Option<CallRow>, RowStop>
    ensures { IsVerdict result (typed_row rows.now name.now return_type.now types.now) }
{
    if return_type.has_empty_part() || any_bad(types) {
        return Err(RowStop::Fault(CallsKind::BadType));
    }
    if types.len() > PARAMETERS {
        return Err(RowStop::Fault(CallsKind::TooManyParameters));
    }
    if has_name(rows, name) {
        return Err(RowStop::Fault(CallsKind::NameTwice));
    }
    let kinds = kinds_in(KCall::named(name), return_type, types);
    numbered(alloc, rows, name, return_type, kinds)
}

/// The types of these fields.
fn types_of(alloc: Global, fields: &[&[u8]]) -> Result<Vec<CallType>, AllocError>
    ensures { IfOk result (λ types. types.items ≡ map type_of (map (λ f. f.now) fields.now)) }
{
    let mut types = Vec::new(alloc);
    for field in fields {
        let t = CallType::of(alloc, field)?;
        types.push(t)?;
    }
    Ok(types)
}

/// A row of this return type and these parameters after others.
#[tactic(auto, unfolding(crate::specs::Rows::declared_row))]
pub(crate) fn declared_row(
    alloc: Global,
    rows: &[CallRow],
    name: &[u8],
    return_type: &[u8],
    types: &[&[u8]],
) -> Result<Option<CallRow>, RowStop>
    ensures { IsVerdict result (declared_row_of rows.now name.now return_type.now (map (λ f. f.now) types.now)) }
{
    if is_union(return_type) || any_union(types) {
        return Err(RowStop::Fault(CallsKind::UnionType));
    }
    let Ok(return_type) = CallType::of(alloc, return_type) else {
        return Err(RowStop::Memory);
    };
    let Ok(types) = types_of(alloc, types) else {
        return Err(RowStop::Memory);
    };
    typed(alloc, rows, name, &return_type, &types)
}
