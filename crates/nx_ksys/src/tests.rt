use super::*;
use nx_base::KCall;
use std::test::Fail;

#[test]
fn replies_stand_in_their_order(rt: HostRuntime) -> Result<(), Fail> {
    let mut replies = Replies::new(rt.alloc(), 2)?;
    assert_eq!(rt; replies.as_slice().len(), 0);
    replies.add(3, -1, 22, b"", b"");
    replies.add(2, 5, 0, b"hello", b"\x01\x00\x00\x00");
    match replies.as_slice() {
        [first, second] => {
            assert_eq!(rt; (first.tid, first.value, first.errno), (3, -1, 22));
            assert_eq!(rt; first.first.len(), 0);
            assert_eq!(rt; (second.tid, second.value, second.errno), (2, 5, 0));
            assert_eq!(rt; second.first.as_slice(), b"hello".as_slice());
            assert_eq!(rt; second.second.as_slice(), b"\x01\x00\x00\x00".as_slice());
        }
        _ => assert!(rt; false),
    }
    replies.clear();
    replies.add(1, 0, 0, b"x", b"");
    match replies.as_slice() {
        [only] => assert_eq!(rt; only.first.as_slice(), b"x".as_slice()),
        _ => assert!(rt; false),
    }
    Ok(())
}

#[test]
fn a_call_keeps_its_inputs(rt: HostRuntime) -> Result<(), Fail> {
    let mut cooked = Cooked::new(rt.alloc())?;
    assert!(rt; cooked.call.is_none());
    assert_eq!(rt; cooked.words, [0; 6]);
    cooked.call = Some(KCall::Write);
    cooked.words = [1, 0, 2, 0, 0, 0];
    cooked.first.push(b'o');
    cooked.first.push(b'k');
    assert_eq!(rt; cooked.first.as_slice(), b"ok".as_slice());
    assert_eq!(rt; cooked.second.len(), 0);
    cooked.first.clear();
    assert_eq!(rt; cooked.first.len(), 0);
    Ok(())
}
