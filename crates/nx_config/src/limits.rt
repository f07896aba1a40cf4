ghost use Rattle.std.specs.Prelude.{◌≡◌, ◌<◌};
ghost use Rattle.nx_config.specs.Limits.{row_of, number_within, limit_at as limit_at_line, limit_by, earlier, number_in, limits_by};
ghost use Rattle.nx_config.specs.Tables.{value_in};

use crate::table::Table;
use crate::value::{Kept, Value};

/// A limit: the name that sets it, its number by default, and from which lowest to which highest
/// multiple it may be.
pub struct Limit {
    /// The name whose value it is.
    pub name: &'static str,
    /// What it is where its name has no value.
    pub default: u32,
    /// The least that it may be.
    pub lowest: u32,
    /// The most that it may be.
    pub highest: u32,
    /// What it must be a multiple of.
    pub multiple: u32,
}

/// Bytes of RAM.
pub const RAM: Limit = Limit {
    name: "CONFIG_NXSIM_RAM",
    default: 4194304,
    lowest: 1048576,
    highest: 16777216,
    multiple: 4096,
};

/// Live threads.
pub const THREADS: Limit = Limit {
    name: "CONFIG_NXSIM_THREADS",
    default: 16,
    lowest: 2,
    highest: 64,
    multiple: 1,
};

/// Pool blocks of 64 bytes.
pub const BLOCKS: Limit = Limit {
    name: "CONFIG_NXSIM_BLOCKS",
    default: 4096,
    lowest: 16,
    highest: 65536,
    multiple: 1,
};

/// Objects of the kernel.
pub const NODES: Limit = Limit {
    name: "CONFIG_NXSIM_NODES",
    default: 128,
    lowest: 16,
    highest: 1024,
    multiple: 1,
};

/// Bytes that the console keeps.
pub const CONSOLE: Limit = Limit {
    name: "CONFIG_NXSIM_CONSOLE",
    default: 1048576,
    lowest: 1024,
    highest: 16777216,
    multiple: 1,
};

/// Bytes of a thread's stack.
pub const STACK: Limit = Limit {
    name: "CONFIG_NXSIM_STACK",
    default: 8192,
    lowest: 4096,
    highest: 1048576,
    multiple: 4096,
};

/// The limits of a system.
#[derive(Clone, Copy, Debug, PartialEq, Eq)]
pub struct Limits {
    /// Bytes of RAM.
    pub ram: u32,
    /// Live threads.
    pub threads: u32,
    /// Pool blocks of 64 bytes.
    pub blocks: u32,
    /// Objects: directories, files and queues made after boot, and semaphores.
    pub nodes: u32,
    /// Bytes that the console keeps.
    pub console: u32,
    /// Bytes of a thread's stack.
    pub stack: u32,
}

/// The number, if the limit may be it.
fn within(limit: &Limit, number: i128) -> Option<u32>
    requires { 0 < limit.now.multiple }
    ensures { result ≡ number_within (row_of limit.now) number }
{
    if number < limit.lowest as i128 || number > limit.highest as i128 {
        return None;
    }
    let number = number as u32;
    if number % limit.multiple != 0 {
        return None;
    }
    Some(number)
}

/// The limit that a name's last line gives, or that line.
fn limit_at(limit: &Limit, kept: &Kept) -> Result<u32, u32>
    requires { 0 < limit.now.multiple }
    ensures { result ≡ limit_at_line (row_of limit.now) kept.now.line kept.now.value }
{
    match &kept.value {
        None => Ok(limit.default),
        Some(Value::Number(number)) => within(limit, *number).ok_or(kept.line),
        Some(Value::Yes) => Err(kept.line),
        Some(Value::Text(_)) => Err(kept.line),
    }
}

fn limit_in(table: &Table, limit: &Limit) -> Result<u32, u32>
    requires { 0 < limit.now.multiple }
    ensures { result ≡ limit_by (row_of limit.now) (value_in table.now) }
{
    match table.find(limit.name.as_bytes()) {
        None => Ok(limit.default),
        Some(kept) => limit_at(limit, kept),
    }
}

fn earlier_line(limit: Result<u32, u32>, line: Option<u32>) -> Option<u32>
    ensures { result ≡ earlier limit line }
{
    match (limit, line) {
        (Ok(_), line) => line,
        (Err(here), None) => Some(here),
        (Err(here), Some(line)) => Some(here.min(line)),
    }
}

fn number(limit: Result<u32, u32>) -> u32
    ensures { result ≡ number_in limit }
{
    match limit {
        Ok(number) => number,
        Err(_) => 0,
    }
}

/// The limits that a table gives, or the first line that gives one out of its range.
#[tactic(auto, unfolding(crate::specs::Limits::limits_by))]
pub fn limits_in(table: &Table) -> Result<Limits, u32>
    ensures { result ≡ limits_by (value_in table.now) }
{
    let ram = limit_in(table, &RAM);
    let threads = limit_in(table, &THREADS);
    let blocks = limit_in(table, &BLOCKS);
    let nodes = limit_in(table, &NODES);
    let console = limit_in(table, &CONSOLE);
    let stack = limit_in(table, &STACK);
    let line = earlier_line(stack, None);
    let line = earlier_line(console, line);
    let line = earlier_line(nodes, line);
    let line = earlier_line(blocks, line);
    let line = earlier_line(threads, line);
    match earlier_line(ram, line) {
        Some(line) => Err(line),
        None => Ok(Limits {
            ram: number(ram),
            threads: number(threads),
            blocks: number(blocks),
            nodes: number(nodes),
            console: number(console),
            stack: number(stack),
        }),
    }
}
