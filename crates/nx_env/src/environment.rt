ghost use Rattle.std.specs.Prelude.{◌≡◌, ◌≤◌, [], ℕ, Some, IfOk, length, option_map, slice_get};
ghost use Rattle.nx_ksys.specs.State.{KernelState};
ghost use Rattle.nx_ksys.specs.Answers.{Caller};
ghost use Rattle.nx_ksys.specs.EnvironmentCalls.{getenv_row, setenv_row, unsetenv_row, env_row, with_environment as with_changed};
ghost use Rattle.nx_env.specs.Joined.{with_environment};
ghost use Rattle.nx_env.specs.Rows.{value_told, done, variable_told};

use crate::variable::Variable;
use crate::variables::{
    VariableText, copy_all, has, is_name, nth, remove, set_all, text_of, value_of,
};
use nx_base::{Errno, OutOfMemory};
use std::alloc::Global;
use std::marker::Model;

/// The most variables that a group has.
pub const MOST_VARIABLES: usize = 16;

/// The environment of a task group: at most 16 variables, in the order in which their names came.
/// Their room is taken when it is made.
#[derive(Debug, Drop)]
pub struct Environment {
    variables: Vec<Variable>,
}

impl Model for Environment {
    ghost use Rattle.std.specs.Prelude.{◌≤◌, List, ℕ, vec_len, vec_capacity};

    ghost Value = { List (List ℕ × List ℕ) };

    ghost view = { λ e. e.variables.items };

    ghost invariant = { λ e. (16 ≤ vec_capacity e.variables) × (vec_len e.variables ≤ 16) };
}

impl Environment {
    /// No variable.
    pub fn new(alloc: Global) -> Result<Environment, OutOfMemory>
        ensures { IfOk result (λ e. e ≡ []) }
    {
        let variables = Vec::with_capacity(alloc, MOST_VARIABLES)?;
        Ok(Environment { variables })
    }

    /// `nx_getenv`: the value of a name. ENOENT where no variable has it.
    #[tactic(auto, unfolding(nx_ksys::specs::EnvironmentCalls::getenv_row))]
    pub fn get(&self, name: &[u8]) -> Option<&[u8]>
        ensures { (k : KernelState) (c : Caller) (size : ℕ) → getenv_row k (with_environment c self.now) name.now size ≡ value_told k (with_environment c self.now) size (option_map (λ r. r.now) result) }
    {
        value_of(name, self.variables.as_slice())
    }

    /// `setenv`: a variable has a value. It keeps the one that it had where `replace` is 0. EINVAL
    /// for a name that hasn't 1 to 32 bytes or has a `=`, ENOMEM for a 17th name.
    #[tactic(auto, unfolding(nx_ksys::specs::EnvironmentCalls::setenv_row), using(crate::proofs::JoinedLemmas::same_group))]
    pub fn set(&mut self, name: &[u8], value: &[u8], replace: u32) -> Result<(), Errno>
        requires { length value.now ≤ 260 }
        ensures { (k : KernelState) (c : Caller) → slice_get k.groups c.place ≡ Some (Some (with_environment c self.old).group)
            → setenv_row k (with_environment c self.old) name.now value.now replace ≡ done (with_changed k (with_environment c self.old) self.new) (with_environment c self.old) result }
    {
        if !is_name(name) {
            return Err(Errno::Einval);
        }
        if has(name, self.variables.as_slice()) {
            if replace == 0 {
                return Ok(());
            }
            set_all(name, value, &mut self.variables);
            return Ok(());
        }
        if self.variables.len() >= MOST_VARIABLES {
            return Err(Errno::Enomem);
        }
        self.variables.push(Variable::new(name, value)).unwrap();
        Ok(())
    }

    /// `unsetenv`: a variable goes, if it is there. EINVAL for a name that hasn't 1 to 32 bytes or
    /// has a `=`.
    #[tactic(auto, unfolding(nx_ksys::specs::EnvironmentCalls::unsetenv_row), using(crate::proofs::JoinedLemmas::same_group))]
    pub fn unset(&mut self, name: &[u8]) -> Result<(), Errno>
        ensures { (k : KernelState) (c : Caller) → slice_get k.groups c.place ≡ Some (Some (with_environment c self.old).group)
            → unsetenv_row k (with_environment c self.old) name.now ≡ done (with_changed k (with_environment c self.old) self.new) (with_environment c self.old) result }
    {
        if !is_name(name) {
            return Err(Errno::Einval);
        }
        remove(name, &mut self.variables);
        Ok(())
    }

    /// `nx_env`: the variable of that index in the byte order of the names, as `NAME=VALUE`; none
    /// after the last. EINVAL for an index below 0.
    #[tactic(auto, unfolding(nx_ksys::specs::EnvironmentCalls::env_row))]
    pub fn list(&self, index: u32) -> Result<Option<VariableText>, Errno>
        ensures { (k : KernelState) (c : Caller) (size : ℕ) → env_row k (with_environment c self.now) index size ≡ variable_told k (with_environment c self.now) size result }
    {
        if index >= 2147483648 {
            return Err(Errno::Einval);
        }
        match nth(index, self.variables.as_slice()) {
            None => Ok(None),
            Some(variable) => Ok(Some(text_of(variable))),
        }
    }

    /// It has the variables of another, and no others.
    pub fn copy_from(&mut self, other: &Environment)
        ensures { self.new ≡ other.now }
    {
        self.variables.clear();
        copy_all(other.variables.as_slice(), &mut self.variables);
    }
}
