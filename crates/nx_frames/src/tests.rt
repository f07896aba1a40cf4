ghost use Rattle.std.specs.Prelude.{◌≡◌, IfOk, length};

use super::*;
use nx_base::OutOfMemory;
use nx_ram::Ram;
use std::alloc::Global;
use std::test::Fail;

fn ram_of(alloc: Global, size: u32) -> Result<Ram, OutOfMemory>
    ensures { IfOk result (λ ram. length ram ≡ size) }
{
    Ram::new(alloc, size)
}

#[test]
fn a_lack_of_frames_has_both_numbers(rt: HostRuntime) -> Result<(), Fail> {
    let text = format!(in rt.alloc(); "{}", TooFew { need: 5, free: 3 })?;
    assert_eq!(rt; text.as_str(), "5 frames are needed and 3 are free");
    Ok(())
}

#[test]
fn frames_are_taken_zeroed_or_refused(rt: HostRuntime) -> Result<(), Fail> {
    let mut ram = ram_of(rt.alloc(), 0x4000)?;
    for place in [0x0FFC, 0x1000, 0x2FFC, 0x3000] {
        if place + 4 <= ram.len() {
            ram.store32(place, 0xA5A5A5A5);
        }
    }
    assert_eq!(rt; ram.len(), 0x4000);
    let mut frames = Frames::new(rt.alloc(), 0x80001000, 3)?;
    let two = frames.take(&mut ram, 2)?;
    assert_eq!(rt; two.count(), 2);
    assert_eq!(rt; frames.frame(&two, 0), 0x80001000);
    assert_eq!(rt; frames.frame(&two, 1), 0x80002000);
    assert_eq!(rt; frames.free(), 1);
    for (place, word) in [
        (0x0FFC, 0xA5A5A5A5),
        (0x1000, 0),
        (0x2FFC, 0),
        (0x3000, 0xA5A5A5A5),
    ] {
        assert!(rt;
            place + 4 <= ram.len() && ram.load32(place) == word,
            "{place:x}"
        );
    }
    match frames.take(&mut ram, 2) {
        Ok(_) => assert!(rt; false),
        Err(few) => {
            assert_eq!(rt; few, TooFew { need: 2, free: 1 });
            frames.give(two);
            assert_eq!(rt; frames.free(), 3);
        }
    }
    Ok(())
}

#[test]
fn joined_frames_follow_the_others(rt: HostRuntime) -> Result<(), Fail> {
    let mut ram = ram_of(rt.alloc(), 0x4000)?;
    let mut frames = Frames::new(rt.alloc(), 0x80001000, 3)?;
    let mut one = frames.take(&mut ram, 1)?;
    let two = frames.take(&mut ram, 2)?;
    frames.join(&mut one, two);
    assert_eq!(rt; one.count(), 3);
    assert_eq!(rt; frames.frame(&one, 0), 0x80001000);
    assert_eq!(rt; frames.frame(&one, 2), 0x80003000);
    frames.give(one);
    assert_eq!(rt; frames.free(), 3);
    Ok(())
}
