ghost use Rattle.std.specs.Prelude.{◌≡◌, map, IfOk, IfErr};
ghost use Rattle.nx_top.specs.FilesRead.{HaveContents, IsStop, ReadsOne};

use nx_base::Bytes;
use nx_outside::{FileStop, Files};
use std::alloc::Global;

/// Why the files were not read, and at which.
#[derive(Drop)]
pub struct ReadStop<'a> {
    /// What happened there.
    pub why: FileStop,
    /// The file's name, as it was given.
    pub name: &'a str,
}

// Reads a file. Where a file that is too long doesn't end the reading, it has no content.
fn read_one<F: Files>(
    alloc: Global,
    name: &str,
    stops_at_long: bool,
    files: &mut F,
) -> Result<Option<Bytes>, FileStop>
    ensures { ReadsOne stops_at_long result (F.told files.old) (F.told files.new) name.now (F.faults files.old) (F.faults files.new) }
{
    let mut bytes = Vec::new(alloc);
    match files.read(name, &mut bytes) {
        Ok(()) => Ok(Some(Bytes::from_vec(bytes))),
        Err(FileStop::TooLong) => {
            if stops_at_long {
                Err(FileStop::TooLong)
            } else {
                Ok(None)
            }
        }
        Err(FileStop::Failed) => Err(FileStop::Failed),
        Err(FileStop::Memory) => Err(FileStop::Memory),
    }
}

/// The contents of the files, in their order. Nothing is read after a file that can't be read, nor
/// after one that is too long, where such a file ends the reading; else it has no content.
pub fn read_files<'a, F: Files>(
    alloc: Global,
    names: &[&'a str],
    stops_at_long: bool,
    files: &mut F,
) -> Result<Vec<Option<Bytes>>, ReadStop<'a>>
    ensures read { IfOk result (λ v. HaveContents stops_at_long (map (λ n. n.now) names.now) v.items (F.told files.old) (F.told files.new)) }
    ensures stops { IfErr result (λ e. IsStop e.why stops_at_long e.name.now (map (λ n. n.now) names.now) (F.told files.old) (F.told files.new) (F.faults files.old) (F.faults files.new)) }
{
    let mut contents = Vec::new(alloc);
    for name in names {
        let got = match read_one(alloc, name, stops_at_long, files) {
            Ok(got) => got,
            Err(why) => return Err(ReadStop { why, name }),
        };
        if contents.push(got).is_err() {
            return Err(ReadStop {
                why: FileStop::Memory,
                name,
            });
        }
    }
    Ok(contents)
}
