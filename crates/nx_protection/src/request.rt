use nx_base::{Access, Mode};
use nx_pmp::{PmpEntry, Question};

/// What a line asks for.
#[derive(Clone, Copy, Debug, PartialEq, Eq)]
pub enum Request {
    Entry { place: usize, entry: PmpEntry },
    Allows(Question),
    Memory(u32),
    Word { place: u32, value: u32 },
    Walk { satp: u32, at: u32, access: Access },
}

fn number(text: &str) -> Option<u32> {
    text.parse::<u32>().ok()
}

fn access_of(text: &str) -> Option<Access> {
    match text {
        "fetch" => Some(Access::Fetch),
        "load" => Some(Access::Load),
        "store" => Some(Access::Store),
        _ => None,
    }
}

fn mode_of(text: &str) -> Option<Mode> {
    match text {
        "user" => Some(Mode::User),
        "machine" => Some(Mode::Machine),
        _ => None,
    }
}

fn question_of(at: &str, len: &str, access: &str, mode: &str) -> Option<Question> {
    Some(Question {
        at: number(at)?,
        len: number(len)?,
        access: access_of(access)?,
        mode: mode_of(mode)?,
    })
}

fn entry_of(cfg: &str, addr: &str) -> Option<PmpEntry> {
    Some(PmpEntry {
        cfg: u8::try_from(number(cfg)?).ok()?,
        addr: number(addr)?,
    })
}

/// The request of a line: its name and its words, parted by single spaces.
pub fn parse_request(line: &str) -> Option<Request> {
    let (name, rest) = line.split_once(' ')?;
    match name {
        "entry" => {
            let (place, rest) = rest.split_once(' ')?;
            let (cfg, addr) = rest.split_once(' ')?;
            Some(Request::Entry {
                place: number(place)? as usize,
                entry: entry_of(cfg, addr)?,
            })
        }
        "allows" => {
            let (at, rest) = rest.split_once(' ')?;
            let (len, rest) = rest.split_once(' ')?;
            let (access, mode) = rest.split_once(' ')?;
            Some(Request::Allows(question_of(at, len, access, mode)?))
        }
        "memory" => Some(Request::Memory(number(rest)?)),
        "word" => {
            let (place, value) = rest.split_once(' ')?;
            Some(Request::Word {
                place: number(place)?,
                value: number(value)?,
            })
        }
        "walk" => {
            let (satp, rest) = rest.split_once(' ')?;
            let (at, access) = rest.split_once(' ')?;
            Some(Request::Walk {
                satp: number(satp)?,
                at: number(at)?,
                access: access_of(access)?,
            })
        }
        _ => None,
    }
}
