ghost use Rattle.std.specs.Prelude.{◌≡◌};
ghost use Rattle.nx_config.specs.FaultTexts.{kind_text};

use thiserror::Error;

/// What is wrong with a configuration.
#[derive(Clone, Copy, Debug, PartialEq, Eq, Error)]
#[error("{text}", text = self.text())]
pub enum ConfigKind {
    /// A line that is no assignment and no comment.
    BadLine,
    /// A number of magnitude 2^64 or more.
    BadNumber,
    /// More than 8,192 names.
    Limit,
    /// A limit outside its range.
    OutOfRange,
    /// More than one build is chosen.
    TwoBuilds,
    /// No build is chosen.
    NoBuild,
}

impl ConfigKind {
    /// The words by which a refusal names it.
    pub fn text(self) -> &'static str
        ensures { result.now ≡ kind_text self }
    {
        match self {
            ConfigKind::BadLine => "bad line",
            ConfigKind::BadNumber => "bad number",
            ConfigKind::Limit => "limit",
            ConfigKind::OutOfRange => "out of range",
            ConfigKind::TwoBuilds => "two builds",
            ConfigKind::NoBuild => "no build",
        }
    }
}

/// Why there is no configuration, or no choice of a build.
#[derive(Clone, Copy, Debug, PartialEq, Eq, Error)]
pub enum ConfigFault {
    /// The text is refused at a line, counted from 1. Line 0 stands for the whole text.
    #[error("{line}: {kind}")]
    Text { line: u32, kind: ConfigKind },
    /// There is no memory for it.
    #[error("out of memory")]
    Memory,
}

/// Why a part of a line was not read.
#[derive(Clone, Copy, Debug, Drop)]
pub enum Stop {
    Memory,
    Fault(ConfigKind),
}
