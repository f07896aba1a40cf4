use crate::tests::reading;
use std::test::Fail;

// Written by scripts/check_tables.py, which reads tables by the rules in docs/CALLS.md.
#[test]
fn tables_are_read_as_the_script_reads_them(rt: HostRuntime) -> Result<(), Fail> {
    for (text, want) in [
        ("c,h,0 ==N || Q,int", ""),
        ("c,h,defined ( Q ) >=A,int", ""),
        ("c,h,! 1M,int", "16 c"),
        ("c,h,!0x1F,int", ""),
        ("c,h,A && 0x >=0,int", "16 c"),
        ("c,h,007||0x1F&)&T <M,int", "1: bad condition"),
        ("c,h,(1) || (0x1F),int", "16 c"),
        ("c,h,!007,int", ""),
        ("c,h,(!0x1F||(M),int", "1: bad condition"),
        ("c,h,Q || 5 && (defined(T)),int", "16 c"),
        ("c,h,!M&&5 ==M,int", ""),
        ("c,h,&!N,int", "1: bad condition"),
        ("c,h,(defined ( Q )),int", ""),
        ("c,h,defined(T)||1 || (defined ( Q )),int", "16 c"),
        ("c,h,!|N,int", "1: bad condition"),
        ("c,h,5 >T || defined ( Q )&&defined(T),int", "16 c"),
        ("c,h,!defined(T),int", ""),
        ("c,h,de!fined(T)&&T && !A,int", "1: bad condition"),
        ("c,h,0 <=0x,int", "16 c"),
        ("c,h,!defined ( Q ) || defined ( Q ) || 0x1F,int", "16 c"),
        ("c,h,M =|| 0 && 0,int", "1: bad condition"),
        ("c,h,0x&&defined(T) && (N),int", ""),
        (
            "open,h,,int,const char *,int,mode_t,...\nopen,h,,int,const char *,int,...\n",
            "2: name twice",
        ),
        (
            "mq_send,h,,int,x | int,const char  *,FAR size_t,unsigned int\npipe2,h,M<0,int,int [2] | FAR int *,char *\n",
            "16 mq_send word in len word; 17 pipe2 word word",
        ),
        (
            "waitpid,h,N==5,int,int,int FAR *,int\n\"write\",\"nxsim.h\",\"\",\"int\",\"int\",\"FAR const void *\",\"size_t\"\ng,h,Q||A,void,struct x *,FAR|FAR",
            "3: bad type",
        ),
        (
            "\u{feff}h,\"a,b\nc\",!Q, FAR int\tFAR ,\"x y\"\ndup,h,,int,int*\n",
            "2: signature",
        ),
        (
            "mq_send,h,,int,x | int,const char  *,FAR size_t,unsigned int\nwaitpid,h,N==5,int,int,int FAR *,int\ndup,h,,int|void *,int\n\n",
            "3: signature",
        ),
        (
            "nx_getenv,h,,int,const char *,char *,...,size_t\nopen,h,,int,const char *,int,mode_t,...\n9a,h,,int\n",
            "3: bad name",
        ),
        (
            "open,h,,int,const char *,int,mode_t,...\nwaitpid,h,N==5,int,int,int FAR *,int\n k ,h,,int,1,2,3,4,5,...,6",
            "16 open text word word; 17 waitpid word out4 word; 18 k word word word word word word",
        ),
        (
            "open,h,,int,const char *,int,mode_t,...\n k ,h,,int,1,2,3,4,5,6,7\n",
            "2: too many parameters",
        ),
        (
            "read,h,A,int,int,void *,size_t\n\"write\",\"nxsim.h\",\"\",\"int\",\"int\",\"FAR const void *\",\"size_t\"\n\"k\"9,h,,int,int\r\n\n",
            "16 read word out len; 17 write word in len; 18 k9 word",
        ),
        (
            "mq_send,h,,int,x | int,const char  *,FAR size_t,unsigned int\nread,h,A,int,int,void *,size_t\nl,h,\n",
            "3: few fields",
        ),
        ("\u{feff}f,h,T,int,a|b|c\nh2,h,,int,|int\n\n", "2: bad type"),
        (
            "open,h,,int,const char *,int,mode_t,...\nmq_send,h,,int,x | int,const char  *,FAR size_t,unsigned int\ncaf\u{e9},h,,int",
            "3: bad name",
        ),
        (
            "open,h,,int,const char *,int,mode_t,...\nf,h,T,int,a|b|c\nm,caf\u{e9},,int,caf\u{e9}\n\n",
            "16 open text word word; 17 m word",
        ),
        (
            "\u{feff}mq_send,h,,int,x | int,const char  *,FAR size_t,unsigned int\n_exit,h,,...,int",
            "16 mq_send word in len word; 17 _exit word",
        ),
        (
            "\u{feff}h,\"a,b\nc\",!Q, FAR int\tFAR ,\"x y\"\nopen,h,,int,const char *,int,mode_t,...\n...,h,,int",
            "3: bad name",
        ),
        (
            "nx_getenv,h,,int,const char *,char *,...,size_t\nh,\"a,b\nc\",!Q, FAR int\tFAR ,\"x y\"\nn,h,...,int",
            "3: bad condition",
        ),
        (
            "\"write\",\"nxsim.h\",\"\",\"int\",\"int\",\"FAR const void *\",\"size_t\"\nopen,h,,int,const char *,int,mode_t,...\nn,...,,int,size_t,size_t\n\n",
            "16 write word in len; 17 open text word word; 18 n word word",
        ),
        (
            "mq_send,h,,int,x | int,const char  *,FAR size_t,unsigned int\nread,h,!A || 1,int,int,char *,size_t\nread,h,,int,int,char *,size_t\n",
            "3: name twice",
        ),
    ] {
        let got = reading(rt.alloc(), text)?;
        assert_eq!(rt; got.as_slice(), want.as_bytes(), "at {text}");
    }
    Ok(())
}
