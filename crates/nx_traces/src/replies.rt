use nx_base::{Bytes, Kind};
use std::alloc::{AllocError, Global};

/// A made up reply: its value, and the bytes of its outputs in the order of the parameters.
#[derive(Drop)]
pub struct Reply {
    pub value: i32,
    pub first: Bytes,
    pub second: Bytes,
}

/// How many bytes of a buffer are moved at most.
const MOST_MOVED: u32 = 4096;

/// The bytes of an output.
fn pattern(alloc: Global, turn: u32, length: u32) -> Result<Bytes, AllocError> {
    let mut bytes = Bytes::new(alloc);
    for place in 0..length {
        bytes.push((turn.wrapping_add(place) % 256) as u8)?;
    }
    Ok(bytes)
}

/// How many bytes a parameter has as an output, if it is one. `next` is the word of the next one.
fn output_length(kind: Kind, next: u32) -> Option<u32> {
    match kind {
        Kind::Out => Some(next.min(MOST_MOVED)),
        Kind::Out4 => Some(4),
        Kind::Out8 => Some(8),
        Kind::Word | Kind::In | Kind::Text | Kind::Len => None,
    }
}

/// The reply to a call, of which so many came before.
pub fn reply_to(
    alloc: Global,
    turn: u32,
    kinds: &[Kind],
    words: &[u32; 6],
) -> Result<Reply, AllocError> {
    let mut reply = Reply {
        value: (turn % 1000 * 37 % 101) as i32 - 50,
        first: Bytes::new(alloc),
        second: Bytes::new(alloc),
    };
    let mut outputs = 0u32;
    for (place, kind) in kinds.iter().enumerate() {
        let next = words.get(place + 1).copied().unwrap_or(0);
        if let Some(length) = output_length(*kind, next) {
            let bytes = pattern(alloc, turn, length)?;
            if outputs == 0 {
                reply.first = bytes;
            } else {
                reply.second = bytes;
            }
            outputs = 1;
        }
    }
    Ok(reply)
}
