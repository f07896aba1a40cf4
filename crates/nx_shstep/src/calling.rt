ghost use Rattle.std.specs.Prelude.{◌≡◌, ◌≤◌, [], ◌∷◌, length};
ghost use Rattle.nx_shrun.specs.Calls.{call as call_with, open_file, close as close_call, kind as kind_call};
ghost use Rattle.nx_shrun.specs.Texts.{word_at};
ghost use Rattle.nx_shrun.specs.Steps.{listed as listed_path, probed as probed_path, change_call, listing_call};
ghost use Rattle.nx_shstep.specs.Short.{AreShort};

use crate::made::MadeCall;
use nx_base::KCall;
use nx_ksys::MovedBytes;
use nx_shrun::{Change, Listing};

/// A word by its place, nothing where there is none.
pub fn word(words: &[MovedBytes], place: usize) -> &[u8]
    requires { AreShort words.now }
    ensures is { result.now ≡ word_at words.now place }
    ensures len { length result.now ≤ 255 }
{
    match words.get(place) {
        Some(word) => word.as_slice(),
        None => b"",
    }
}

/// The path of `ls`.
pub fn listed(words: &[MovedBytes]) -> &[u8]
    requires { AreShort words.now }
    ensures is { result.now ≡ listed_path words.now }
    ensures len { length result.now ≤ 255 }
{
    if words.len() == 1 {
        b"."
    } else {
        word(words, 1)
    }
}

/// The path of an expression, which is its last word.
pub fn probed(isnt: bool, words: &[MovedBytes]) -> &[u8]
    requires { AreShort words.now }
    ensures is { result.now ≡ probed_path isnt words.now }
    ensures len { length result.now ≤ 255 }
{
    if isnt { word(words, 3) } else { word(words, 2) }
}

impl MadeCall {
    /// `open` with these flags.
    pub fn set_open(&mut self, path: &[u8], flags: u32)
        requires { length path.now ≤ 255 }
        ensures { self.new ≡ open_file path.now flags }
    {
        self.set_one(KCall::Open, 0, flags, 0, 0, path);
    }

    /// `close`.
    pub fn set_close(&mut self, fd: u32)
        ensures { self.new ≡ close_call fd }
    {
        self.set(KCall::Close, fd, 0, 0);
    }

    /// `nx_kind`.
    pub fn set_kind(&mut self, path: &[u8])
        requires { length path.now ≤ 255 }
        ensures { self.new ≡ kind_call path.now }
    {
        self.set_one(KCall::NxKind, 0, 0, 0, 0, path);
    }

    fn set_path(&mut self, which: KCall, path: &[u8])
        requires { length path.now ≤ 255 }
        ensures { self.new ≡ call_with which 0 0 0 0 (path.now ∷ []) }
    {
        self.set_one(which, 0, 0, 0, 0, path);
    }

    /// The call of a change, with the words of its command.
    pub fn set_change(&mut self, change: Change, words: &[MovedBytes])
        requires { AreShort words.now }
        ensures { self.new ≡ change_call change words.now }
    {
        match change {
            Change::Chdir => {
                if words.len() == 1 {
                    self.set_path(KCall::Chdir, b"/")
                } else {
                    self.set_path(KCall::Chdir, word(words, 1))
                }
            }
            Change::Mkdir => self.set_path(KCall::Mkdir, word(words, 1)),
            Change::Rmdir => self.set_path(KCall::Rmdir, word(words, 1)),
            Change::Unlink => self.set_path(KCall::Unlink, word(words, 1)),
            Change::Rename => self.set_two(KCall::Rename, 0, word(words, 1), word(words, 2)),
            Change::Setenv => self.set_two(KCall::Setenv, 1, word(words, 1), word(words, 2)),
            Change::Unsetenv => self.set_path(KCall::Unsetenv, word(words, 1)),
        }
    }

    /// The call for one of a listing, by its index from 0.
    pub fn set_listing(&mut self, listing: Listing, words: &[MovedBytes], index: u32)
        requires { AreShort words.now }
        ensures { self.new ≡ listing_call listing words.now index }
    {
        match listing {
            Listing::Names => self.set_one(KCall::NxReaddir, 0, index, 0, 256, listed(words)),
            Listing::Variables => self.set(KCall::NxEnv, index, 0, 512),
            Listing::Groups => self.set(KCall::NxPs, index, 0, 512),
        }
    }
}
