ghost use Rattle.std.specs.Prelude.{◌<◌, ◌↔◌, IsTrue, length};

use super::*;
use nx_base::Errno;
use nx_ksys::{Node, NodeKind, Target};
use std::test::Fail;

// Helpers that take any texts, so that a test proves in no time. A text that is too long fails.

fn is_short(text: &[u8]) -> bool
    ensures { IsTrue result ↔ (length text.now < 256) }
{
    text.len() < 256
}

fn names(directory: &[u8], text: &[u8], path: &[u8]) -> bool {
    if !is_short(directory) {
        return false;
    }
    if !is_short(text) {
        return false;
    }
    match normal_path(directory, text) {
        None => false,
        Some(found) => found.as_slice() == path,
    }
}

fn put(tree: &mut Tree, path: &[u8], kind: NodeKind, fixed: bool) -> bool {
    if !is_short(path) {
        return false;
    }
    let path = normal::to_path(path);
    if !tree.has_room() {
        return false;
    }
    match tree.find(&path) {
        Some(_) => false,
        None => {
            tree.add(path, Node { kind, fixed });
            true
        }
    }
}

fn make(tree: &mut Tree, directory: &[u8], text: &[u8], is_full: bool) -> Result<(), Errno> {
    if !is_short(directory) {
        return Err(Errno::Enomem);
    }
    if !is_short(text) {
        return Err(Errno::Enomem);
    }
    if !tree.has_room() {
        return Err(Errno::Enomem);
    }
    tree.make_directory(directory, text, is_full)
}

fn remove(tree: &mut Tree, text: &[u8]) -> Result<(), Errno> {
    if !is_short(text) {
        return Err(Errno::Enomem);
    }
    tree.remove_directory(b"", text)
}

fn rename(tree: &mut Tree, first: &[u8], second: &[u8]) -> Result<(), Errno> {
    if !is_short(first) {
        return Err(Errno::Enomem);
    }
    if !is_short(second) {
        return Err(Errno::Enomem);
    }
    tree.rename(b"/tmp", first, second)
}

fn kind(tree: &Tree, text: &[u8]) -> Result<u32, Errno> {
    if !is_short(text) {
        return Err(Errno::Enomem);
    }
    tree.kind(b"/tmp", text)
}

fn enters(tree: &Tree, text: &[u8]) -> bool {
    if !is_short(text) {
        return false;
    }
    tree.enter(b"/tmp", text).is_ok()
}

fn lists(tree: &Tree, text: &[u8], index: u32, name: &[u8]) -> bool {
    if !is_short(text) {
        return false;
    }
    match tree.list(b"", text, index) {
        Ok(Some(found)) => found.as_slice() == name,
        _ => false,
    }
}

fn opens(tree: &Tree, text: &[u8], flags: u32, free: Option<u32>) -> Result<Opening, Errno> {
    if !is_short(text) {
        return Err(Errno::Enomem);
    }
    tree.open(b"", text, flags, false, free)
}

fn unlink(tree: &mut Tree, text: &[u8]) -> Result<u32, Errno> {
    if !is_short(text) {
        return Err(Errno::Enomem);
    }
    tree.remove_file(b"", text)
}

// What is done to a tree.
#[derive(Clone, Copy)]
enum Step {
    Put(&'static [u8], NodeKind, bool),
    Make(&'static [u8], &'static [u8], bool),
    Remove(&'static [u8]),
    Rename(&'static [u8], &'static [u8]),
    Kind(&'static [u8]),
    Enter(&'static [u8]),
    List(&'static [u8], u32, &'static [u8]),
    Unlink(&'static [u8]),
}

fn done(made: Result<(), Errno>) -> Result<u32, Errno> {
    match made {
        Ok(()) => Ok(0),
        Err(fault) => Err(fault),
    }
}

fn truth(answer: bool) -> Result<u32, Errno> {
    if answer { Ok(1) } else { Ok(0) }
}

fn act(tree: &mut Tree, step: Step) -> Result<u32, Errno> {
    match step {
        Step::Put(path, kind, fixed) => truth(put(tree, path, kind, fixed)),
        Step::Make(directory, text, is_full) => done(make(tree, directory, text, is_full)),
        Step::Remove(text) => done(remove(tree, text)),
        Step::Rename(first, second) => done(rename(tree, first, second)),
        Step::Kind(text) => kind(tree, text),
        Step::Enter(text) => truth(enters(tree, text)),
        Step::List(text, index, name) => truth(lists(tree, text, index, name)),
        Step::Unlink(text) => unlink(tree, text),
    }
}

#[test]
fn texts_name_paths(rt: HostRuntime) -> Result<(), Fail> {
    for (directory, text, path) in [
        (b"/tmp".as_slice(), b"a".as_slice(), b"/tmp/a".as_slice()),
        (b"", b"a//./b/", b"/a/b"),
        (b"/tmp", b"/none/../bin", b"/bin"),
        (b"/tmp", b"../..", b""),
        (b"/tmp", b"/", b""),
        (
            b"",
            b"/abcdefghijklmnopqrstuvwxyz0123456789/../tmp",
            b"/tmp",
        ),
    ] {
        assert!(rt; names(directory, text, path), "{text:?}");
    }
    let long = b"/abcdefghijklmnopqrstuvwxyz0123456".as_slice();
    assert!(rt; !names(b"", long, long));
    Ok(())
}

#[test]
fn paths_have_a_last_name(rt: HostRuntime) -> Result<(), Fail> {
    assert_eq!(rt; last_name(b"/tmp/a"), b"a".as_slice());
    assert_eq!(rt; last_name(b""), b"".as_slice());
    assert_eq!(rt; shown(b""), b"/".as_slice());
    assert_eq!(rt; shown(b"/tmp"), b"/tmp".as_slice());
    Ok(())
}

#[test]
fn directories_are_made_and_removed(rt: HostRuntime) -> Result<(), Fail> {
    let mut tree = Tree::new(rt.alloc(), 6)?;
    for (step, wanted) in [
        (Step::Put(b"", NodeKind::Directory, true), Ok(1)),
        (Step::Put(b"/bin", NodeKind::Directory, true), Ok(1)),
        (Step::Put(b"/tmp", NodeKind::Directory, true), Ok(1)),
        (Step::Put(b"/null", NodeKind::Null, true), Ok(1)),
        (Step::Make(b"/tmp", b"b", false), Ok(0)),
        (Step::Make(b"/tmp", b"b", false), Err(Errno::Eexist)),
        (Step::Make(b"/tmp", b"x/y", false), Err(Errno::Enoent)),
        (Step::Make(b"/bin", b"x", false), Err(Errno::Einval)),
        (Step::Make(b"/tmp", b"x", true), Err(Errno::Enospc)),
        (Step::Make(b"/tmp/b", b"c", false), Ok(0)),
        (Step::Remove(b"/"), Err(Errno::Einval)),
        (Step::Remove(b"null"), Err(Errno::Enotdir)),
        (Step::Remove(b"/tmp/b"), Err(Errno::Enotempty)),
        (Step::Remove(b"/tmp/b/c"), Ok(0)),
        (Step::Remove(b"/tmp/b"), Ok(0)),
    ] {
        assert_eq!(rt; act(&mut tree, step), wanted);
    }
    assert!(rt; tree.has_room());
    assert_eq!(rt; tree.made_directories(), 0);
    Ok(())
}

#[test]
fn directories_are_renamed_and_listed(rt: HostRuntime) -> Result<(), Fail> {
    let mut tree = Tree::new(rt.alloc(), 6)?;
    for (step, wanted) in [
        (Step::Put(b"", NodeKind::Directory, true), Ok(1)),
        (Step::Put(b"/bin", NodeKind::Directory, true), Ok(1)),
        (Step::Put(b"/tmp", NodeKind::Directory, true), Ok(1)),
        (Step::Put(b"/tmp/b", NodeKind::Directory, false), Ok(1)),
        (Step::Put(b"/tmp/b/c", NodeKind::Directory, false), Ok(1)),
        (Step::Put(b"/null", NodeKind::Null, true), Ok(1)),
        (Step::Rename(b"b", b"b/d"), Err(Errno::Einval)),
        (Step::Rename(b"b", b"/bin"), Err(Errno::Eexist)),
        (Step::Rename(b"b", b"a"), Ok(0)),
        (Step::Kind(b"a/c"), Ok(2)),
        (Step::Kind(b"b"), Err(Errno::Enoent)),
        (Step::List(b"/", 0, b"bin/"), Ok(1)),
        (Step::List(b"/", 1, b"null"), Ok(1)),
        (Step::List(b"/", 2, b"tmp/"), Ok(1)),
        (Step::List(b"/", 3, b""), Ok(0)),
        (Step::Enter(b"a"), Ok(1)),
        (Step::Enter(b"/null"), Ok(0)),
    ] {
        assert_eq!(rt; act(&mut tree, step), wanted);
    }
    Ok(())
}

#[test]
fn files_are_opened_and_unlinked(rt: HostRuntime) -> Result<(), Fail> {
    let mut tree = Tree::new(rt.alloc(), 4)?;
    assert!(rt; put(&mut tree, b"", NodeKind::Directory, true));
    assert!(rt; put(&mut tree, b"/null", NodeKind::Null, true));
    assert!(rt; matches!(opens(&tree, b"f", 6, Some(3)), Ok(Opening::Made(_, 3))));
    assert!(rt; put(&mut tree, b"/f", NodeKind::File(3), false));
    assert!(rt; matches!(opens(&tree, b"f", 34, None), Ok(Opening::Emptied(3))));
    assert!(rt;
        matches!(
            opens(&tree, b"f", 1, None),
            Ok(Opening::Found(Target::File(3)))
        )
    );
    for (text, flags, fault) in [
        (b"f".as_slice(), 14, Errno::Eexist),
        (b"/", 1, Errno::Eisdir),
        (b"f/g", 6, Errno::Enotdir),
        (b"g", 4, Errno::Einval),
    ] {
        match opens(&tree, text, flags, None) {
            Err(found) => assert_eq!(rt; found, fault),
            Ok(_) => assert!(rt; false, "{text:?}"),
        }
    }
    for (step, wanted) in [
        (Step::Unlink(b"f"), Ok(3)),
        (Step::Unlink(b"null"), Err(Errno::Einval)),
        (Step::Unlink(b"/"), Err(Errno::Eisdir)),
    ] {
        assert_eq!(rt; act(&mut tree, step), wanted);
    }
    assert!(rt; !tree.has_file(3));
    assert!(rt; put(&mut tree, b"q", NodeKind::Queue(3), false));
    assert!(rt; tree.has_queue(3) && !tree.has_queue(4) && !tree.has_file(3));
    Ok(())
}
