use super::*;
use nx_base::{Bytes, KCall, Kind};
use nx_config::read_config;
use std::alloc::{AllocError, Global};
use std::test::Fail;

/// What reading a table gives under `A=y`, `N=5`, `M=-3` and `T="x"`.
fn table(alloc: Global, text: &str) -> Result<Calls, CallsFault> {
    let Ok(config) = read_config(alloc, b"A=y\nN=5\nM=-3\nT=\"x\"\n") else {
        return Err(CallsFault::Memory);
    };
    if text.len() > 1048576 {
        return Err(CallsFault::Memory);
    }
    read_calls(alloc, text.as_bytes(), &config)
}

fn kind_name(kind: Kind) -> &'static str {
    match kind {
        Kind::Word => " word",
        Kind::In => " in",
        Kind::Text => " text",
        Kind::Out => " out",
        Kind::Len => " len",
        Kind::Out4 => " out4",
        Kind::Out8 => " out8",
    }
}

fn put_row(alloc: Global, text: &mut Bytes, row: &CallRow) -> Result<(), AllocError> {
    let number = format!(in alloc; "{} ", row.number)?;
    text.append(number.as_bytes())?;
    text.append(row.name.as_slice())?;
    for kind in row.kinds.as_slice() {
        text.append(kind_name(*kind).as_bytes())?;
    }
    Ok(())
}

/// What reading a table gives, in a line: number, name and kinds of each row, or the first fault.
pub fn reading(alloc: Global, text: &str) -> Result<Bytes, AllocError> {
    let mut line = Bytes::new(alloc);
    match table(alloc, text) {
        Ok(calls) => {
            for row in calls.rows() {
                if !line.is_empty() {
                    line.append(b"; ")?;
                }
                put_row(alloc, &mut line, row)?;
            }
        }
        Err(CallsFault::Text { row, kind }) => {
            let fault = format!(in alloc; "{row}: {kind}")?;
            line.append(fault.as_bytes())?;
        }
        Err(CallsFault::Memory) => return Err(AllocError),
    }
    Ok(line)
}

#[test]
fn rows_have_kinds_by_their_types(rt: HostRuntime) -> Result<(), Fail> {
    use Kind::{In, Len, Out, Out4, Out8, Text, Word};
    for (types, want) in [
        (
            "\"write\",\"h\",\"\",\"ssize_t\",\"int\",\"FAR const void *\",\"size_t\"",
            [Word, In, Len].as_slice(),
        ),
        ("open,h,,int,const char *,int,...", [Text, Word].as_slice()),
        (
            "open,h,,int,const char *,int,...,mode_t",
            [Text, Word, Word].as_slice(),
        ),
        (
            "waitpid,h,,pid_t,pid_t,int FAR *,int",
            [Word, Out4, Word].as_slice(),
        ),
        (
            "mq_receive,h,,int,mqd_t,char *,size_t,FAR  unsigned\tint *",
            [Word, Out, Len, Out4].as_slice(),
        ),
        (
            "nx_getenv,h,,int,const char *,char *,...,size_t",
            [Text, Out, Len].as_slice(),
        ),
        (
            "mq_send,h,,int,x|mqd_t,FAR const char FAR *,size_t,unsigned int",
            [Word, In, Len, Word].as_slice(),
        ),
        (
            "nx_zap,h,,int,struct x *,const void *,size_t",
            [Word, Word, Word].as_slice(),
        ),
        ("getpid,h,,pid_t", [].as_slice()),
    ] {
        let calls = table(rt.alloc(), types)?;
        assert_eq!(rt; calls.rows().len(), 1, "at {types}");
        assert_eq!(rt; calls.rows()[0].kinds.as_slice(), want, "at {types}");
    }
    let pair = CallType::of(rt.alloc(), b"int [2] | FAR int *")?;
    let kinds = kinds_of(&[pair]).ok_or("no kind")?;
    assert_eq!(rt; kinds.as_slice(), [Out8].as_slice());
    let other = CallType::of(rt.alloc(), b"int[2]|int *")?;
    let kinds = kinds_of(&[other]).ok_or("no kind")?;
    assert_eq!(rt; kinds.as_slice(), [Out4].as_slice());
    Ok(())
}

#[test]
fn true_rows_are_numbered_from_16(rt: HostRuntime) -> Result<(), Fail> {
    let text =
        "a_1,h,,int\nb,h,!defined(A),union|void|x,a|b|c\n\n\"_exit\" ,h, N == 5 && T == 0 ,void,int\r\nB,h,B,int\nc,h,A,x | FAR void,int";
    let calls = table(rt.alloc(), text)?;
    assert_eq!(rt; calls.rows().len(), 3);
    let first = &calls.rows()[0];
    assert_eq!(rt; first.name.as_slice(), b"a_1".as_slice());
    assert_eq!(rt; first.number, 16);
    assert!(rt; first.returns && first.kernel.is_none());
    let second = &calls.rows()[1];
    assert_eq!(rt; second.name.as_slice(), b"_exit".as_slice());
    assert_eq!(rt; second.number, 17);
    assert!(rt; !second.returns);
    assert_eq!(rt; second.kernel, Some(KCall::Exit));
    let third = &calls.rows()[2];
    assert_eq!(rt; third.number, 18);
    assert!(rt; !third.returns && third.kernel.is_none());
    Ok(())
}

#[test]
fn the_first_fault_is_named_by_its_record(rt: HostRuntime) {
    for (text, row, kind) in [
        ("a,h,", 1, CallsKind::FewFields),
        ("a,h,,int\n \n", 2, CallsKind::FewFields),
        ("\n\n9,h,,int", 1, CallsKind::BadName),
        (" \"a\",h,,int", 1, CallsKind::BadName),
        ("a-b,h,),int", 1, CallsKind::BadName),
        ("a,h,1 +,int", 1, CallsKind::BadCondition),
        (
            "a,h,0 && 18446744073709551616,int",
            1,
            CallsKind::BadCondition,
        ),
        ("a,h,,a|b|c,", 1, CallsKind::UnionType),
        (
            "nx_zap,h,,int,,union sigval|FAR void *|sival_ptr",
            1,
            CallsKind::UnionType,
        ),
        ("a,h,, FAR ,int", 1, CallsKind::BadType),
        ("a,h,,int,FAR|int", 1, CallsKind::BadType),
        ("a,h,,int,int|", 1, CallsKind::BadType),
        ("a,h,,int,1,2,3,4,5,6,7", 1, CallsKind::TooManyParameters),
        ("a,h,,int\na,h,,int,,", 2, CallsKind::BadType),
        ("a,h,,int\na,h,0,int\na,h,,int", 3, CallsKind::NameTwice),
        ("write,h,,int,int,const void *", 1, CallsKind::Signature),
        (
            "write,h,,char *,int,const void *,size_t",
            1,
            CallsKind::Signature,
        ),
        ("dup,h,,int,int*", 1, CallsKind::Signature),
        ("open,h,,int,const char *", 1, CallsKind::Signature),
        ("nx_getcwd,h,,int,char *,x,size_t", 1, CallsKind::Signature),
    ] {
        let got = table(rt.alloc(), text);
        assert!(rt; matches!(got, Err(CallsFault::Text { .. })), "at {text}");
        let Err(fault) = got else { continue };
        assert_eq!(rt; fault, CallsFault::Text { row, kind }, "at {text}");
    }
}

#[test]
fn the_513th_true_row_is_refused(rt: HostRuntime) -> Result<(), Fail> {
    let mut text = String::new(rt.alloc());
    for i in 0..512 {
        let row = format!(in rt.alloc(); "c{i},h,,int\n")?;
        text.push_str(row.as_str())?;
    }
    text.push_str("d,h,0,int\n")?;
    assert_eq!(rt; table(rt.alloc(), text.as_str())?.rows().len(), 512);
    text.push_str("d,h,1,int\n")?;
    let fault = CallsFault::Text {
        row: 514,
        kind: CallsKind::Limit,
    };
    assert_eq!(rt; table(rt.alloc(), text.as_str()).err(), Some(fault));
    Ok(())
}
