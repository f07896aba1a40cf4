use super::*;

#[test]
fn takes_the_form_of_a_run(rt: HostRuntime) {
    let found = form(&["run", "c", "t", "s", "p=a=b"]);
    assert!(rt; matches!(found, Some(CommandWords::Run(_))));
    if let Some(CommandWords::Run(found)) = found {
        assert_eq!(rt; found.config, "c");
        assert_eq!(rt; found.calls, "t");
        assert_eq!(rt; found.script, "s");
        assert_eq!(rt; found.name, "p");
        assert_eq!(rt; found.file, "a=b");
    }
    assert!(rt; form(&["run", "", "t", "s", "p=a"]).is_some());
    assert!(rt; form(&["run", "c", "t", "s", "abcdefghabcdefghabcdefgh_BCD0123=a"]).is_some());
}

#[test]
fn takes_the_form_of_a_listing(rt: HostRuntime) {
    let found = form(&["gates", "c", "t"]);
    assert!(rt; matches!(found, Some(CommandWords::Gates(_))));
    if let Some(CommandWords::Gates(found)) = found {
        assert_eq!(rt; found.config, "c");
        assert_eq!(rt; found.calls, "t");
    }
    assert!(rt; form(&["gates", "", ""]).is_some());
    assert!(rt; form(&["gates", "-", "c=--x"]).is_some());
}

#[test]
fn refuses_other_words(rt: HostRuntime) {
    assert!(rt; form(&[]).is_none());
    assert!(rt; form(&["run", "c", "t", "s"]).is_none());
    assert!(rt; form(&["run", "c", "t", "s", "p=a", "q=b"]).is_none());
    assert!(rt; form(&["walk", "c", "t", "s", "p=a"]).is_none());
    assert!(rt; form(&["run", "--x", "t", "s", "p=a"]).is_none());
    assert!(rt; form(&["gates"]).is_none());
    assert!(rt; form(&["gates", "c"]).is_none());
    assert!(rt; form(&["gates", "c", "t", "s"]).is_none());
    assert!(rt; form(&["gates", "--build=flat", "t"]).is_none());
    assert!(rt; form(&["gates", "c", "--"]).is_none());
    assert!(rt; form(&["Gates", "c", "t"]).is_none());
    assert!(rt; form(&["--help"]).is_none());
    let words: [&str; 7] = [
        "p",
        "p=",
        "=a",
        "p-q=a",
        "p=x.hex",
        "p=.hex",
        "abcdefghabcdefghabcdefghabcdefgh0=a",
    ];
    for word in words {
        assert!(rt; form(&["run", "c", "t", "s", word]).is_none(), "{word}");
    }
}
