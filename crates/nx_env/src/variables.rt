// Variables in the order in which their names came.
ghost use Rattle.std.specs.Prelude.{◌≡◌, ◌≤◌, ◌+◌, ◌==◌, true, ◌++◌, ◌∷◌, ℕ, not, length, map, filter, option_map, vec_capacity, vec_len, if◌then◌else◌};
ghost use Rattle.std.specs.List.{find, list_any};
ghost use Rattle.nx_ksys.specs.Paths.{name_before};
ghost use Rattle.nx_ksys.specs.EnvironmentCalls.{is_variable, with_value, is_variable_name, names_before, is_nth_variable};

use crate::variable::Variable;
use arrayvec::ArrayVec;

/// A variable as `NAME=VALUE`.
pub type VariableText = ArrayVec<u8, 293>;

fn is_named(name: &[u8], variable: &Variable) -> bool
    ensures { result ≡ is_variable name.now variable.now }
{
    name == variable.name()
}

fn has_equals(name: &[u8]) -> bool
    ensures { result ≡ list_any (λ b. b == 61) name.now }
{
    name.iter().any(|byte| *byte == b'=')
}

/// Whether a name has 1 to 32 bytes, none of them `=`.
pub fn is_name(name: &[u8]) -> bool
    ensures name { result ≡ is_variable_name name.now }
    ensures short { result ≡ true → length name.now ≤ 32 }
{
    1 <= name.len() && name.len() <= 32 && !has_equals(name)
}

/// Whether there is a variable of a name.
pub fn has(name: &[u8], variables: &[Variable]) -> bool
    ensures { result ≡ list_any (is_variable name.now) variables.now }
{
    for variable in variables {
        if is_named(name, variable) {
            return true;
        }
    }
    false
}

/// The value of a name.
pub fn value_of<'a>(name: &[u8], variables: &'a [Variable]) -> Option<&'a [u8]>
    ensures { option_map (λ r. r.now) result ≡ option_map (λ v. v.1) (find (is_variable name.now) variables.now) }
{
    for variable in variables {
        if is_named(name, variable) {
            return Some(variable.value());
        }
    }
    None
}

fn set_one(name: &[u8], value: &[u8], variable: &mut Variable)
    requires { length value.now ≤ 260 }
    ensures { variable.new ≡ with_value name.now value.now variable.old }
{
    if is_named(name, variable) {
        variable.set(value);
    }
}

/// The variable of a name has another value.
pub fn set_all(name: &[u8], value: &[u8], variables: &mut [Variable])
    requires { length value.now ≤ 260 }
    ensures { variables.new ≡ map (with_value name.now value.now) variables.old }
{
    for at in 0..variables.len() {
        set_one(name, value, &mut variables[at]);
    }
}

/// The variable of a name goes.
pub fn remove(name: &[u8], variables: &mut Vec<Variable>)
    ensures items { variables.new.items ≡ filter (λ v. not (is_variable name.now v)) variables.old.items }
    ensures capacity { vec_capacity variables.old ≤ vec_capacity variables.new }
    ensures len { vec_len variables.new ≤ vec_len variables.old }
{
    variables.retain(|variable| !is_named(name, variable));
}

/// All variables of another environment come into an empty one.
pub fn copy_all(from: &[Variable], to: &mut Vec<Variable>)
    requires empty { vec_len to.old ≡ 0 }
    requires room { length from.now ≤ vec_capacity to.old }
    ensures items { to.new.items ≡ from.now }
    ensures capacity { vec_capacity to.old ≤ vec_capacity to.new }
{
    for variable in from {
        to.push(variable.copy()).unwrap();
    }
}

fn comes_first(name: &[u8], other: &[u8]) -> bool
    ensures { result ≡ name_before name.now other.now }
{
    name.cmp(other).is_lt()
}

fn count_one(variable: &Variable, name: &[u8]) -> usize
    ensures count { result ≡ (if name_before variable.now.0 name.now then 1 else 0) }
    ensures few { result ≤ 1 }
{
    if comes_first(variable.name(), name) {
        1
    } else {
        0
    }
}

fn count_before(name: &[u8], variables: &[Variable]) -> usize
    ensures { result ≡ names_before name.now variables.now }
{
    let mut count = 0;
    for variable in variables {
        count += count_one(variable, name);
    }
    count
}

fn is_nth(index: u32, variable: &Variable, variables: &[Variable]) -> bool
    ensures { result ≡ is_nth_variable variables.now index variable.now }
{
    count_before(variable.name(), variables) == index as usize
}

/// The variable of that index, in the order of the names.
pub fn nth(index: u32, variables: &[Variable]) -> Option<&Variable>
    ensures { option_map (λ r. r.now) result ≡ find (is_nth_variable variables.now index) variables.now }
{
    for variable in variables {
        if is_nth(index, variable, variables) {
            return Some(variable);
        }
    }
    None
}

fn put_all(text: &mut VariableText, bytes: &[u8])
    requires { length text.old.items + length bytes.now ≤ 293 }
    ensures { text.new.items ≡ text.old.items ++ bytes.now }
{
    for byte in bytes {
        text.push(*byte);
    }
}

/// A variable as `NAME=VALUE`.
pub fn text_of(variable: &Variable) -> VariableText
    ensures { result.items ≡ variable.now.0 ++ 61 ∷ variable.now.1 }
{
    let mut text = ArrayVec::new();
    put_all(&mut text, variable.name());
    put_all(&mut text, b"=");
    put_all(&mut text, variable.value());
    text
}
