use super::*;

#[test]
fn tells_the_files_of_a_run(rt: HostRuntime) {
    assert!(rt; is_config(b"CONFIG_BUILD_FLAT=y\n"));
    assert!(rt; !is_config(b"CONFIG_BUILD_FLAT=y"));
    assert!(rt;
        is_calls(b"\"write\",\"nxsim.h\",\"\",\"int\",\"int\",\"const void *\",\"size_t\"\n")
    );
    assert!(rt; !is_calls(b""));
    assert!(rt; is_script(b"hello", b"hello\n"));
    assert!(rt; !is_script(b"hello", b"hello"));
    assert!(rt; !is_script(b"hello", b"hello\nhello\n"));
    assert!(rt; !is_script(b"echo", b"echo\n"));
    assert!(rt; is_script(b"echoes", b"echoes\n"));
}
