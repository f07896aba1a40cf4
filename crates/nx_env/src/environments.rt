ghost use Rattle.std.specs.Prelude.{◌≡◌, ◌<◌, ◌≤◌, [], ℕ, List, Option, Some, IfOk, length, option_map, replicate, slice_get, slice_set};
ghost use Rattle.nx_ksys.specs.State.{Group, KernelState};
ghost use Rattle.nx_ksys.specs.Answers.{Caller};
ghost use Rattle.nx_ksys.specs.EnvironmentCalls.{getenv_row, setenv_row, unsetenv_row, env_row, with_environment as with_changed};
ghost use Rattle.nx_env.specs.Joined.{Variables, variables_at, with_variables, joined, with_groups, with_environment, in_group};
ghost use Rattle.nx_env.specs.Rows.{value_told, done, variable_told};

use crate::environment::Environment;
use crate::variables::VariableText;
use nx_base::{Errno, OutOfMemory};
use std::alloc::{AllocError, Global};
use std::marker::Model;

/// The environments of task groups, by the slots of their main threads. All memory is taken when it
/// is made.
#[derive(Debug, Drop)]
pub struct Environments {
    items: Vec<Environment>,
    // Where the variables of one group stand on the way to another.
    between: Environment,
}

impl Model for Environments {
    ghost use Rattle.std.specs.Prelude.{List, ℕ};

    ghost Value = { List (List (List ℕ × List ℕ)) };

    ghost view = { λ e. e.items.items };
}

fn no_environments(alloc: Global, count: u32) -> Result<Vec<Environment>, OutOfMemory>
    ensures { IfOk result (λ v. v.items ≡ replicate count []) }
{
    let mut items = Vec::new(alloc);
    for _ in 0..count {
        items.push(Environment::new(alloc)?)?;
    }
    Ok(items)
}

fn set_at(
    items: &mut [Environment],
    place: usize,
    name: &[u8],
    value: &[u8],
    replace: u32,
) -> Result<(), Errno>
    requires place { place < length items.old }
    requires short { length value.now ≤ 260 }
    ensures { (k : KernelState) (c : Caller) (groups : List (Option Group)) (g : Group) → slice_get groups place ≡ Some (Some g)
        → setenv_row (with_groups k (joined groups items.old)) (in_group c place (with_variables g (variables_at items.old place))) name.now value.now replace
        ≡ done (with_groups k (joined groups items.new)) (in_group c place (with_variables g (variables_at items.old place))) result }
{
    items[place].set(name, value, replace)
}

fn unset_at(items: &mut [Environment], place: usize, name: &[u8]) -> Result<(), Errno>
    requires { place < length items.old }
    ensures { (k : KernelState) (c : Caller) (groups : List (Option Group)) (g : Group) → slice_get groups place ≡ Some (Some g)
        → unsetenv_row (with_groups k (joined groups items.old)) (in_group c place (with_variables g (variables_at items.old place))) name.now
        ≡ done (with_groups k (joined groups items.new)) (in_group c place (with_variables g (variables_at items.old place))) result }
{
    items[place].unset(name)
}

fn copy_at(items: &mut [Environment], from: usize, to: usize, between: &mut Environment)
    requires from { from < length items.old }
    requires to { to < length items.old }
    ensures { items.new ≡ slice_set items.old to (variables_at items.old from) }
{
    between.copy_from(&items[from]);
    items[to].copy_from(between);
}

impl Environments {
    /// So many places, with no variable.
    pub fn new(alloc: Global, groups: u32) -> Result<Environments, OutOfMemory>
        ensures { IfOk result (λ e. e ≡ replicate groups []) }
    {
        let items = no_environments(alloc, groups)?;
        let between = Environment::new(alloc)?;
        Ok(Environments { items, between })
    }

    /// `nx_getenv` in the group at a place: the value of a name. ENOENT where no variable has it.
    pub fn get(&self, place: u32, name: &[u8]) -> Option<&[u8]>
        requires { place < length self.now }
        ensures { (k : KernelState) (c : Caller) (size : ℕ) → getenv_row k (with_environment c (variables_at self.now place)) name.now size
            ≡ value_told k (with_environment c (variables_at self.now place)) size (option_map (λ r. r.now) result) }
    {
        self.items[place as usize].get(name)
    }

    /// `setenv` in the group at a place: a variable has a value. It keeps the one that it had where
    /// `replace` is 0. EINVAL for a name that hasn't 1 to 32 bytes or has a `=`, ENOMEM for a 17th
    /// name.
    pub fn set(&mut self, place: u32, name: &[u8], value: &[u8], replace: u32) -> Result<(), Errno>
        requires place { place < length self.old }
        requires short { length value.now ≤ 260 }
        ensures row { (k : KernelState) (c : Caller) (groups : List (Option Group)) (g : Group) → slice_get groups place ≡ Some (Some g)
            → setenv_row (with_groups k (joined groups self.old)) (in_group c place (with_variables g (variables_at self.old place))) name.now value.now replace
            ≡ done (with_groups k (joined groups self.new)) (in_group c place (with_variables g (variables_at self.old place))) result }
        ensures places { length self.new ≡ length self.old }
    {
        set_at(&mut self.items, place as usize, name, value, replace)
    }

    /// `unsetenv` in the group at a place: a variable goes, if it is there. EINVAL for a name that
    /// hasn't 1 to 32 bytes or has a `=`.
    pub fn unset(&mut self, place: u32, name: &[u8]) -> Result<(), Errno>
        requires { place < length self.old }
        ensures row { (k : KernelState) (c : Caller) (groups : List (Option Group)) (g : Group) → slice_get groups place ≡ Some (Some g)
            → unsetenv_row (with_groups k (joined groups self.old)) (in_group c place (with_variables g (variables_at self.old place))) name.now
            ≡ done (with_groups k (joined groups self.new)) (in_group c place (with_variables g (variables_at self.old place))) result }
        ensures places { length self.new ≡ length self.old }
    {
        unset_at(&mut self.items, place as usize, name)
    }

    /// `nx_env` in the group at a place: the variable of that index in the byte order of the names,
    /// as `NAME=VALUE`; none after the last. EINVAL for an index below 0.
    pub fn list(&self, place: u32, index: u32) -> Result<Option<VariableText>, Errno>
        requires { place < length self.now }
        ensures { (k : KernelState) (c : Caller) (size : ℕ) → env_row k (with_environment c (variables_at self.now place)) index size
            ≡ variable_told k (with_environment c (variables_at self.now place)) size result }
    {
        self.items[place as usize].list(index)
    }

    /// A group that begins at a place has the variables of the group at another.
    pub fn share(&mut self, from: u32, to: u32)
        requires from { from < length self.old }
        requires to { to < length self.old }
        ensures { self.new ≡ slice_set self.old to (variables_at self.old from) }
    {
        copy_at(
            &mut self.items,
            from as usize,
            to as usize,
            &mut self.between,
        );
    }
}
