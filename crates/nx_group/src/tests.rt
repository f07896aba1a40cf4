use super::*;
use nx_base::{Errno, KCall};
use nx_ksys::{Asked, Doing, Open, Replies, Target, Thread, Wait};
use nx_sched::Threads;
use std::test::Fail;

fn file(place: u32) -> Open {
    Open {
        target: Target::File(place),
        flags: 3,
        offset: 0,
    }
}

#[test]
fn descriptions_stand_at_their_places(rt: HostRuntime) -> Result<(), Fail> {
    let mut all = Descriptions::new(rt.alloc(), 3)?;
    assert_eq!(rt; all.free(), Some(0));
    all.add(0, file(7));
    all.add(1, file(8));
    assert_eq!(rt; all.free(), Some(2));
    all.set(
        0,
        Open {
            target: Target::File(7),
            flags: 3,
            offset: 5,
        },
    );
    match all.get(0) {
        Some(found) => assert_eq!(rt; found.offset, 5),
        None => assert!(rt; false),
    }
    all.remove(0);
    assert!(rt; all.get(0).is_none() && all.get(1).is_some());
    assert!(rt; all.leads_to_file(8) && !all.leads_to_file(7));
    assert_eq!(rt; all.free(), Some(0));
    Ok(())
}

#[test]
fn a_group_has_descriptors_of_its_own(rt: HostRuntime) -> Result<(), Fail> {
    let mut all = Descriptors::new(rt.alloc(), 2)?;
    all.set(0, 0, Some(4));
    all.set(1, 0, Some(4));
    all.set(1, 1, Some(5));
    assert_eq!(rt; all.free(0), Some(1));
    assert_eq!(rt; all.free(1), Some(2));
    assert_eq!(rt; all.get(1, 1), Some(5));
    assert_eq!(rt; all.get(1, 32), None);
    all.share_streams(1, 0);
    assert_eq!(rt; all.get(0, 1), Some(5));
    assert_eq!(rt; all.get(0, 2), None);
    all.set(0, 0, None);
    assert!(rt; all.has(4) && !all.has(6));
    Ok(())
}

fn begin(groups: &mut Groups, place: u32, number: u32, parent: u32) -> bool {
    if place as usize >= groups.len() {
        return false;
    }
    groups.begin(
        place,
        Group::new(number, 7, parent, b"/tmp", b"p", b"x\ny z\n"),
    );
    true
}

#[test]
fn groups_know_their_children(rt: HostRuntime) -> Result<(), Fail> {
    let mut groups = Groups::new(rt.alloc(), 4)?;
    assert!(rt; !groups.any());
    for (place, number, parent) in [(0, 1, 0), (1, 5, 1), (3, 7, 5)] {
        assert!(rt; begin(&mut groups, place, number, parent));
    }
    assert_eq!(rt; groups.place_of(7), Some(3));
    assert!(rt; groups.has_program(7) && !groups.has_program(8));
    for (parent, child, has) in [(1, 5, true), (1, 7, false), (5, 7, true), (7, 1, false)] {
        assert_eq!(rt; groups.has_child(parent, child), has);
    }
    assert!(rt; groups.len() == 4);
    groups.end(1, 5);
    assert!(rt; !groups.has_any_child(5) && !groups.has_any_child(1));
    match groups.get(3) {
        Some(group) => {
            assert_eq!(rt; group.parent(), 0);
            assert_eq!(rt; group.count_arguments(), 3);
            for (index, wanted) in [(0, b"p".as_slice()), (1, b"x"), (2, b"y z"), (3, b"")] {
                match group.argument(index) {
                    Some(found) => assert_eq!(rt; found, wanted),
                    None => assert_eq!(rt; index, 3),
                }
            }
        }
        None => assert!(rt; false),
    }
    Ok(())
}

fn waiter(number: u32, priority: u8, wait: Wait) -> Thread {
    Thread {
        number,
        group: 1,
        priority,
        errno: 0,
        doing: Doing::Waits(wait, number as u64),
        asked: Asked {
            call: Some(KCall::Waitpid),
            words: [0; 6],
        },
    }
}

#[test]
#[tactic(auto, unfolding(nx_ksys::specs::Threads::change_thread))]
fn a_parent_is_told_of_an_end(rt: HostRuntime) -> Result<(), Fail> {
    let groups = Groups::new(rt.alloc(), 4)?;
    let mut codes = Codes::new(rt.alloc(), 4)?;
    let mut threads = Threads::new(rt.alloc(), 4)?;
    let mut replies = Replies::new(rt.alloc(), 4)?;
    threads.begin(0, waiter(1, 90, Wait::AnyChild));
    threads.begin(1, waiter(2, 100, Wait::Child(5)));
    threads.begin(2, waiter(3, 200, Wait::Thread(2)));
    tell_parent(
        Code::new(1, 5, 9),
        &groups,
        &mut codes,
        &mut threads,
        &mut replies,
    );
    match replies.as_slice() {
        [first, second] => {
            assert_eq!(rt; (first.tid, first.value, first.errno), (2, 5, 0));
            assert_eq!(rt; first.first.as_slice(), b"\x09\x00\x00\x00".as_slice());
            assert_eq!(rt; (second.tid, second.value), (1, -1));
            assert_eq!(rt; second.errno, Errno::Echild.number());
        }
        _ => assert!(rt; false),
    }
    assert!(rt; !codes.has(1, 5));
    assert!(rt; is_joined(2, &threads) && !is_joined(1, &threads));
    Ok(())
}

#[test]
fn codes_and_values_are_taken_once(rt: HostRuntime) -> Result<(), Fail> {
    let mut codes = Codes::new(rt.alloc(), 2)?;
    codes.add(Code::new(1, 5, 9));
    codes.add(Code::new(1, 6, 8));
    assert!(rt; codes.is_full());
    match codes.find_any(1) {
        Some(code) => assert_eq!(rt; (code.child(), code.code()), (5, 9)),
        None => assert!(rt; false),
    }
    codes.take(5);
    assert!(rt; !codes.has(1, 5) && codes.has_any(1) && codes.find(1, 6).is_some());
    codes.forget(1);
    assert!(rt; !codes.has_any(1));
    let mut values = Values::new(rt.alloc(), 1)?;
    values.add(ThreadValue::new(1, 4, 7));
    match values.find(1, 4) {
        Some(value) => assert_eq!(rt; value.value(), 7),
        None => assert!(rt; false),
    }
    values.take(4);
    assert!(rt; values.find(1, 4).is_none() && !values.is_full());
    Ok(())
}
