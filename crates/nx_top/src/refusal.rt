ghost use Rattle.std.specs.Prelude.{◌≡◌, ◌++◌, IfOk};
ghost use Rattle.nx_top.specs.Refusals.{kind_text, line_and_kind as line_and_kind_of, refusal};

use nx_base::{Bytes, OutOfMemory};
use nx_calls::CallsKind;
use nx_config::ConfigKind;
use std::alloc::Global;

/// What is wrong with a file, by what it was read as.
#[derive(Clone, Copy, Debug, PartialEq, Eq)]
pub enum FaultKind {
    Config(ConfigKind),
    Calls(CallsKind),
}

impl FaultKind {
    /// The words by which a refusal names it.
    pub fn text(self) -> &'static str
        ensures { result.now ≡ kind_text self }
    {
        match self {
            FaultKind::Config(kind) => kind.text(),
            FaultKind::Calls(kind) => kind.text(),
        }
    }
}

/// A file has no reading, or passes a limit.
#[derive(Debug, Drop)]
pub struct FileFault {
    /// The file's name, as it was given.
    pub file: Bytes,
    /// The line, or of a call table the record, counted from 1.
    pub line: u32,
    /// What is wrong there.
    pub kind: FaultKind,
}

impl FileFault {
    /// The line and what is wrong there, as they stand after the file's name.
    #[tactic(auto, unfolding(crate::specs::Refusals::line_and_kind))]
    pub fn line_and_kind(&self, alloc: Global) -> Result<Bytes, OutOfMemory>
        ensures { IfOk result (λ text. text ≡ line_and_kind_of self.now) }
    {
        let line = format!(in alloc; ":{}: ", self.line)?;
        let mut text = Bytes::from_slice(alloc, line.as_bytes())?;
        text.append(self.kind.text().as_bytes())?;
        Ok(text)
    }
}

/// The line of a refusal.
#[tactic(auto, unfolding(crate::specs::Refusals::refusal))]
pub fn refusal_line(alloc: Global, what: &[u8], name: &[u8]) -> Result<Bytes, OutOfMemory>
    ensures { IfOk result (λ text. text ≡ refusal (what.now ++ name.now)) }
{
    let mut text = Bytes::from_slice(alloc, b"nxsim: ")?;
    text.append(what)?;
    text.append(name)?;
    text.push(b'\n')?;
    Ok(text)
}
