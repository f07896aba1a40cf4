ghost use Rattle.std.specs.Prelude.{◌≡◌, ◌∷◌, [], List, ℕ, IfOk, map};
ghost use Rattle.nx_calls.specs.Rows.{is_ellipsis as is_ellipsis_field, parameters as parameters_of, is_c_name as is_c_name_text};
ghost use Rattle.nx_calls.specs.Answers.{IsHeld, IsSaid};

use crate::fault::{CallsKind, RowStop};
use crate::row::{CallRow, declared_row};
use nx_base::is_identifier;
use nx_conditions::{ConditionStop, Meanings, holds, read_condition};
use std::alloc::{AllocError, Global};

/// How many bytes a name has at most.
const LONGEST_NAME: usize = 64;

/// How many bytes a condition has at most.
const LONGEST_CONDITION: usize = 1024;

/// Whether these bytes are a name of C of at most 64 bytes.
fn is_c_name(name: &[u8]) -> bool
    ensures { result ≡ is_c_name_text name.now }
{
    is_identifier(name) && name.len() <= LONGEST_NAME
}

fn is_ellipsis(field: &[u8]) -> bool
    ensures { result ≡ is_ellipsis_field field.now }
{
    field == b"...".as_slice()
}

/// The fields of parameters among these.
fn parameters<'a>(alloc: Global, fields: &[&'a [u8]]) -> Result<Vec<&'a [u8]>, AllocError>
    ensures { IfOk result (λ v. map (λ f. f.now) v.items ≡ parameters_of (map (λ f. f.now) fields.now)) }
{
    let mut kept = Vec::new(alloc);
    for field in fields {
        if is_ellipsis(field) {
            continue;
        }
        kept.push(*field)?;
    }
    Ok(kept)
}

/// Whether the condition of a row holds.
fn condition_holds<M: Meanings>(
    alloc: Global,
    text: &[u8],
    meanings: &M,
) -> Result<bool, ConditionStop>
    ensures { IsHeld (M.meaning meanings.now) text.now result }
{
    if text.len() > LONGEST_CONDITION {
        return Err(ConditionStop::Bad);
    }
    match read_condition(alloc, text) {
        Ok(condition) => Ok(holds(&condition, meanings)),
        Err(stop) => Err(stop),
    }
}

/// What a row of at least four fields says after other rows, whatever its header file.
fn said<M: Meanings>(
    alloc: Global,
    rows: &[CallRow],
    name: &[u8],
    condition: &[u8],
    return_type: &[u8],
    types: &[&[u8]],
    meanings: &M,
) -> Result<Option<CallRow>, RowStop>
    ensures { (header : List ℕ) → IsSaid (M.meaning meanings.now) rows.now (name.now ∷ header ∷ condition.now ∷ return_type.now ∷ map (λ f. f.now) types.now) result }
{
    if !is_c_name(name) {
        return Err(RowStop::Fault(CallsKind::BadName));
    }
    match condition_holds(alloc, condition, meanings) {
        Err(ConditionStop::Memory) => Err(RowStop::Memory),
        Err(ConditionStop::Bad) => Err(RowStop::Fault(CallsKind::BadCondition)),
        Ok(false) => Ok(None),
        Ok(true) => match parameters(alloc, types) {
            Ok(types) => declared_row(alloc, rows, name, return_type, &types),
            Err(_) => Err(RowStop::Memory),
        },
    }
}

/// What the fields of a row say after other rows.
pub(crate) fn judge<M: Meanings>(
    alloc: Global,
    rows: &[CallRow],
    fields: &[&[u8]],
    meanings: &M,
) -> Result<Option<CallRow>, RowStop>
    ensures { IsSaid (M.meaning meanings.now) rows.now (map (λ f. f.now) fields.now) result }
{
    match fields {
        [name, _, condition, return_type, types @ ..] => {
            said(alloc, rows, name, condition, return_type, types, meanings)
        }
        _ => Err(RowStop::Fault(CallsKind::FewFields)),
    }
}
