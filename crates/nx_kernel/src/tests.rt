use super::*;
use std::test::Fail;

#[test]
fn a_terminal_shows_what_it_has_room_for(rt: HostRuntime) -> Result<(), Fail> {
    let mut input = Vec::new(rt.alloc());
    input.extend_from_slice(b"abc")?;
    let mut terminal = Terminal::new(rt.alloc(), 4, input)?;
    assert_eq!(rt; terminal.room_for(6), 4);
    terminal.show(b"he");
    assert_eq!(rt; terminal.room_for(6), 2);
    assert_eq!(rt; terminal.room_for(1), 1);
    assert_eq!(rt; terminal.shown(), b"he".as_slice());
    assert_eq!(rt; terminal.front(2), b"ab".as_slice());
    terminal.skip(2);
    assert_eq!(rt; terminal.front(9), b"c".as_slice());
    Ok(())
}

#[test]
fn time_passes_a_deadline_by_the_next_lateness(rt: HostRuntime) -> Result<(), Fail> {
    let mut late = Vec::new(rt.alloc());
    late.push(5)?;
    let mut clock = Clock::new(late);
    clock.pass_to(10);
    assert_eq!(rt; clock.time(), 15);
    clock.pass_to(20);
    assert_eq!(rt; clock.time(), 20);
    Ok(())
}

#[test]
fn no_group_ended_yet(rt: HostRuntime) -> Result<(), Fail> {
    let ends = Ends::new(rt.alloc(), 3)?;
    assert_eq!(rt; ends.as_slice().len(), 0);
    Ok(())
}
