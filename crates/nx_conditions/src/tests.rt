ghost use Rattle.std.specs.Prelude.{◌≡◌};

use crate::{ConditionStop, Meaning, Meanings, holds, read_condition, value};
use sqlite_items::Items;
use std::alloc::Global;

/// Every name means this.
#[derive(Drop)]
struct Everywhere {
    meaning: Option<Meaning>,
}

impl Meanings for Everywhere {
    ghost meaning = { λ all name. all.meaning };

    fn meaning(&self, _name: &[u8]) -> Option<Meaning> {
        self.meaning
    }
}

/// What a text is worth where each name means this.
fn worth(alloc: Global, text: &[u8], meaning: Option<Meaning>) -> Result<i128, ConditionStop> {
    if text.len() > 1024 {
        return Err(ConditionStop::Bad);
    }
    let condition = read_condition(alloc, text)?;
    Ok(value(&condition, &Everywhere { meaning }))
}

#[test]
fn reads_and_values_conditions(rt: HostRuntime) {
    for (text, want) in [
        ("", 1),
        (" \t ", 1),
        ("0", 0),
        ("007", 7),
        ("0x1F", 31),
        ("18446744073709551615", 18446744073709551615),
        ("A", 0),
        ("defined(A)", 0),
        ("! defined ( A )", 1),
        ("!!5", 1),
        ("1||0&&0", 1),
        ("(1||0)&&0", 0),
        ("(1<2)==1", 1),
        ("2<=2 && 3>=3 && 2!=3", 1),
        ("!1==0", 1),
        ("definedA", 0),
        ("0x == 12a", 1),
    ] {
        let got = worth(rt.alloc(), text.as_bytes(), None).unwrap_or(9);
        assert_eq!(rt; got, want, "at {text}");
    }
}

#[test]
fn refuses_what_is_no_condition(rt: HostRuntime) {
    for text in [
        "18446744073709551616",
        "0x10000000000000000",
        "0 && 18446744073709551616",
        "defined",
        "defined(defined)",
        "defined(12)",
        "defined A",
        "1 2",
        "1 = 1",
        "1 & 1",
        "(1",
        "1)",
        "1 &&",
        "|| 1",
        "1 + 1",
        "1\n",
        "1 < 2 < 3",
        "1 < 2 == 1",
    ] {
        let got = worth(rt.alloc(), text.as_bytes(), None);
        assert!(rt; matches!(got, Err(ConditionStop::Bad)), "at {text}");
    }
}

#[test]
fn names_have_their_meaning(rt: HostRuntime) {
    for (text, meaning, want) in [
        ("CONFIG_A", Some(Meaning::Yes), 1),
        ("CONFIG_A", Some(Meaning::Number(-3)), -3),
        ("CONFIG_A < 0", Some(Meaning::Number(-3)), 1),
        ("CONFIG_A", Some(Meaning::Other), 0),
        ("defined(CONFIG_A)", Some(Meaning::Other), 1),
    ] {
        let got = worth(rt.alloc(), text.as_bytes(), meaning).unwrap_or(9);
        assert_eq!(rt; got, want, "at {text}");
    }
}

/// A text of so many bytes, all but the last alike.
fn repeated(alloc: Global, byte: u8, count: usize, last: u8) -> Result<Items<u8>, ConditionStop> {
    let mut text = Items::new(alloc);
    for _ in 0..count {
        text.push(byte)?;
    }
    text.push(last)?;
    Ok(text)
}

#[test]
fn deep_conditions_end(rt: HostRuntime) {
    let negated = repeated(rt.alloc(), b'!', 1023, b'0').expect(&rt, "memory");
    let got = worth(rt.alloc(), negated.as_slice(), None).unwrap_or(9);
    assert_eq!(rt; got, 1);
    let opened = repeated(rt.alloc(), b'(', 1023, b'1').expect(&rt, "memory");
    let got = worth(rt.alloc(), opened.as_slice(), None);
    assert!(rt; matches!(got, Err(ConditionStop::Bad)));
}

#[test]
fn an_empty_condition_holds(rt: HostRuntime) {
    let condition = read_condition(rt.alloc(), b"").expect(&rt, "memory");
    assert!(rt; holds(&condition, &Everywhere { meaning: None }));
}
