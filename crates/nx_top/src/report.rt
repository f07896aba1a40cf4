ghost use Rattle.std.specs.Prelude.{◌≡◌, ◌+◌, ◌++◌, [], ◌∷◌, IfOk, OnOk, length, codes};
ghost use Rattle.std.specs.List.{flat_map};
ghost use Rattle.std.specs.Fmt.{decimal};
ghost use Rattle.std.specs.String.{string_bytes};
ghost use Rattle.sha2.specs.Sha256.{sha256};
ghost use Rattle.hex.specs.Hex.{encode_lower};
ghost use Rattle.nx_top.specs.Report.{build_name, stop_text, stop_status, hex_line, number_line, report_head, status_line, report_tail, report_pieces};

use crate::pieces::Pieces;
use nx_base::{Build, Bytes, OutOfMemory};
use sha2::{Digest, Sha256};
use std::alloc::Global;

/// Why a run stopped.
#[derive(Clone, Copy, Debug, PartialEq, Eq)]
pub enum RunStop {
    /// No group is left.
    Ended,
    /// The instructions are as many as the run may make.
    Fuel,
    /// A thread of a group needs so many bytes of stack, more than it has.
    Stack { group: u32, need: u32 },
    /// A start or a stack needs so many page frames, and fewer are free.
    Pages { need: u32, free: u32 },
    /// No thread is ready, and no deadline stands.
    Idle,
}

impl RunStop {
    /// The exit status of a run that stopped so.
    pub fn status(self) -> u8
        ensures { result ≡ stop_status self }
    {
        match self {
            RunStop::Ended => 0,
            RunStop::Fuel => 5,
            RunStop::Stack { .. } => 6,
            RunStop::Pages { .. } => 7,
            RunStop::Idle => 8,
        }
    }

    fn text(self, alloc: Global) -> Result<Bytes, OutOfMemory>
        ensures { IfOk result (λ text. text ≡ stop_text self) }
    {
        let text = match self {
            RunStop::Ended => Bytes::from_slice(alloc, b"ended")?,
            RunStop::Fuel => Bytes::from_slice(alloc, b"fuel")?,
            RunStop::Stack { group, need } => two_numbers(alloc, b"stack ", group, need)?,
            RunStop::Pages { need, free } => two_numbers(alloc, b"pages ", need, free)?,
            RunStop::Idle => Bytes::from_slice(alloc, b"idle")?,
        };
        Ok(text)
    }
}

/// A group that ended.
#[derive(Debug, Drop)]
pub struct EndedGroup {
    /// Its number: 1 is the shell, 2 the first program.
    pub number: u32,
    /// The name of its program.
    pub name: Bytes,
    /// The value with which it ended.
    pub status: u8,
}

/// What a run came to.
#[derive(Debug, Drop)]
pub struct Report {
    /// The build that ran.
    pub build: Build,
    /// The bytes of the image that ran.
    pub image: Bytes,
    /// Whether these bytes are printed.
    pub shown: bool,
    /// The bytes that were written to the console.
    pub console: Bytes,
    /// Why the run stopped.
    pub stop: RunStop,
    /// How many calls the shell and the programs made.
    pub calls: u64,
    /// How many instructions were made, where a call of the shell counts one.
    pub instructions: u64,
    /// The groups that ended, in the order in which they ended.
    pub ended: Vec<EndedGroup>,
}

// A word and two numbers.
fn two_numbers(alloc: Global, word: &[u8], first: u32, second: u32) -> Result<Bytes, OutOfMemory>
    ensures { IfOk result (λ text. text ≡ word.now ++ decimal first ++ 32 ∷ decimal second) }
{
    let numbers = format!(in alloc; "{first} {second}")?;
    let mut text = Bytes::from_slice(alloc, word)?;
    text.append(numbers.as_bytes())?;
    Ok(text)
}

fn name_of_build(build: Build) -> &'static [u8]
    ensures { result.now ≡ build_name build }
{
    match build {
        Build::Flat => b"flat",
        Build::Protected => b"protected",
        Build::Kernel => b"kernel",
    }
}

// The SHA-256 of bytes in lower-case hexadecimal digits.
fn digest(alloc: Global, bytes: &[u8]) -> Result<String, OutOfMemory>
    ensures { IfOk result (λ text. string_bytes text ≡ encode_lower (sha256 bytes.now)) }
{
    let digest = Sha256::digest(bytes);
    let text = hex::encode(alloc, digest.as_slice())?;
    Ok(text)
}

// A line that gives a number.
fn put_number(alloc: Global, text: &mut Bytes, name: &[u8], number: u64) -> Result<(), OutOfMemory>
    ensures { OnOk result (text.new ≡ text.old ++ number_line name.now number) }
{
    let digits = format!(in alloc; "{number}\n")?;
    text.append(name)?;
    text.append(digits.as_bytes())?;
    Ok(())
}

// The line of the image's bytes, where they are asked for.
#[tactic(auto, unfolding(crate::specs::Report::hex_line))]
fn put_hex(alloc: Global, text: &mut Bytes, shown: bool, image: &[u8]) -> Result<(), OutOfMemory>
    ensures { OnOk result (text.new ≡ text.old ++ hex_line shown image.now) }
{
    if !shown {
        return Ok(());
    }
    let digits = hex::encode(alloc, image)?;
    text.append(b"image hex ")?;
    text.append(digits.as_bytes())?;
    text.push(b'\n')?;
    Ok(())
}

// The line of a group that ended.
#[tactic(auto, unfolding(crate::specs::Report::status_line))]
fn put_status(alloc: Global, text: &mut Bytes, group: &EndedGroup) -> Result<(), OutOfMemory>
    ensures { OnOk result (text.new ≡ text.old ++ status_line group.now) }
{
    let number = format!(in alloc; "status {} ", group.number)?;
    let status = format!(in alloc; " {}\n", group.status)?;
    text.append(number.as_bytes())?;
    text.append(group.name.as_slice())?;
    text.append(status.as_bytes())?;
    Ok(())
}

fn put_ended(alloc: Global, text: &mut Bytes, ended: &[EndedGroup]) -> Result<(), OutOfMemory>
    ensures { OnOk result (text.new ≡ text.old ++ flat_map status_line ended.now) }
{
    for group in ended {
        put_status(alloc, text, group)?;
    }
    Ok(())
}

// The line that says why the run stopped.
fn put_stop(alloc: Global, text: &mut Bytes, stop: RunStop) -> Result<(), OutOfMemory>
    ensures { OnOk result (text.new ≡ text.old ++ 10 ∷ codes "stop: " ++ stop_text stop ++ 10 ∷ []) }
{
    let why = stop.text(alloc)?;
    text.append(b"\nstop: ")?;
    text.append(why.as_slice())?;
    text.push(b'\n')?;
    Ok(())
}

// The lines that name the build and the image.
fn put_image(alloc: Global, text: &mut Bytes, build: Build, image: &[u8]) -> Result<(), OutOfMemory>
    ensures { OnOk result (text.new ≡ text.old ++ codes "build " ++ build_name build ++ 10 ∷ codes "image " ++ encode_lower (sha256 image.now) ++ 10 ∷ []) }
{
    let digest = digest(alloc, image)?;
    text.append(b"build ")?;
    text.append(name_of_build(build))?;
    text.append(b"\nimage ")?;
    text.append(digest.as_bytes())?;
    text.push(b'\n')?;
    Ok(())
}

impl Report {
    /// The lines up to the console's bytes.
    #[tactic(auto, unfolding(crate::specs::Report::report_head))]
    fn head(&self, alloc: Global) -> Result<Bytes, OutOfMemory>
        ensures { IfOk result (λ text. text ≡ report_head self.now) }
    {
        let mut text = Bytes::new(alloc);
        put_image(alloc, &mut text, self.build, self.image.as_slice())?;
        put_hex(alloc, &mut text, self.shown, self.image.as_slice())?;
        put_number(alloc, &mut text, b"console ", self.console.len() as u64)?;
        Ok(text)
    }

    /// The lines after the console's bytes.
    #[tactic(auto, unfolding(crate::specs::Report::report_tail))]
    fn tail(&self, alloc: Global) -> Result<Bytes, OutOfMemory>
        ensures { IfOk result (λ text. text ≡ report_tail self.now) }
    {
        let mut text = Bytes::new(alloc);
        put_stop(alloc, &mut text, self.stop)?;
        put_number(alloc, &mut text, b"calls ", self.calls)?;
        put_number(alloc, &mut text, b"instructions ", self.instructions)?;
        put_ended(alloc, &mut text, self.ended.as_slice())?;
        Ok(text)
    }

    /// The three pieces in which it is put: the lines up to the console's bytes, these bytes, and the rest.
    pub fn pieces(&self, alloc: Global) -> Result<Pieces, OutOfMemory>
        ensures { IfOk result (λ pieces. pieces ≡ report_pieces self.now) }
    {
        let mut pieces = Pieces::new(alloc);
        pieces.push(self.head(alloc)?)?;
        pieces.push(Bytes::from_slice(alloc, self.console.as_slice())?)?;
        pieces.push(self.tail(alloc)?)?;
        Ok(pieces)
    }
}
