ghost use Rattle.std.specs.Prelude.{◌≡◌, ◌∷◌, []};
ghost use Rattle.nx_base.specs.declared.build.Build.{Build};
ghost use Rattle.nx_config.specs.Builds.{yes_line, choices, placed, in_order, only, build_by};
ghost use Rattle.nx_config.specs.Tables.{value_in};

use crate::fault::{ConfigFault, ConfigKind};
use crate::table::Table;
use crate::value::Value;
use nx_base::Build;

/// The name that chooses the flat build.
pub const FLAT: &str = "CONFIG_BUILD_FLAT";

/// The name that chooses the protected build.
pub const PROTECTED: &str = "CONFIG_BUILD_PROTECTED";

/// The name that chooses the kernel build.
pub const KERNEL: &str = "CONFIG_BUILD_KERNEL";

fn line_of_yes(table: &Table, name: &str) -> Option<u32>
    ensures { result ≡ yes_line (value_in table.now name.now) }
{
    let kept = table.find(name.as_bytes())?;
    match &kept.value {
        Some(Value::Yes) => Some(kept.line),
        _ => None,
    }
}

fn two_builds(line: u32) -> Result<Build, ConfigFault>
    ensures { result ≡ Err (ConfigFault.Text line ConfigKind.TwoBuilds) }
{
    Err(ConfigFault::Text {
        line,
        kind: ConfigKind::TwoBuilds,
    })
}

/// The later of two lines.
fn later(a: u32, b: u32) -> u32
    ensures { (x y : Build) → only (in_order ((a, x) ∷ (b, y) ∷ [])) ≡ Err (ConfigFault.Text result ConfigKind.TwoBuilds) }
{
    if a <= b {
        return b;
    }
    a
}

/// The second of a line and two lines in order.
fn second(a: u32, low: u32, high: u32) -> u32
    ensures { (x y z : Build) → only (placed (a, x) ((low, y) ∷ (high, z) ∷ [])) ≡ Err (ConfigFault.Text result ConfigKind.TwoBuilds) }
{
    if a <= low {
        return low;
    }
    if a <= high {
        return a;
    }
    high
}

/// The second of three lines.
fn middle(a: u32, b: u32, c: u32) -> u32
    ensures { (x y z : Build) → only (in_order ((a, x) ∷ (b, y) ∷ (c, z) ∷ [])) ≡ Err (ConfigFault.Text result ConfigKind.TwoBuilds) }
{
    if b <= c {
        return second(a, b, c);
    }
    second(a, c, b)
}

fn choose(
    flat: Option<u32>,
    protected: Option<u32>,
    kernel: Option<u32>,
) -> Result<Build, ConfigFault>
    ensures { result ≡ only (in_order (choices flat protected kernel)) }
{
    match (flat, protected, kernel) {
        (None, None, None) => Err(ConfigFault::Text {
            line: 0,
            kind: ConfigKind::NoBuild,
        }),
        (Some(_), None, None) => Ok(Build::Flat),
        (None, Some(_), None) => Ok(Build::Protected),
        (None, None, Some(_)) => Ok(Build::Kernel),
        (Some(a), Some(b), None) => two_builds(later(a, b)),
        (Some(a), None, Some(b)) => two_builds(later(a, b)),
        (None, Some(a), Some(b)) => two_builds(later(a, b)),
        (Some(a), Some(b), Some(c)) => two_builds(middle(a, b, c)),
    }
}

/// The build that a table chooses.
#[tactic(auto, unfolding(crate::specs::Builds::build_by))]
pub fn build_in(table: &Table) -> Result<Build, ConfigFault>
    ensures { result ≡ build_by (value_in table.now) }
{
    choose(
        line_of_yes(table, FLAT),
        line_of_yes(table, PROTECTED),
        line_of_yes(table, KERNEL),
    )
}
