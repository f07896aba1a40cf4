// The table of the kernel's calls, as examples/syscall.csv has it. Its listing is by
// scripts/list_gates.py, with the words of the GNU assembler.
pub const STANDARD_TABLE: &str = r#""write","nxsim.h","","int","int","const void *","size_t"
"read","nxsim.h","","int","int","void *","size_t"
"open","nxsim.h","","int","const char *","int","int"
"close","nxsim.h","","int","int"
"lseek","nxsim.h","","int","int","off_t","int"
"dup","nxsim.h","","int","int"
"dup2","nxsim.h","","int","int","int"
"unlink","nxsim.h","","int","const char *"
"mkdir","nxsim.h","","int","const char *","int"
"rmdir","nxsim.h","","int","const char *"
"rename","nxsim.h","","int","const char *","const char *"
"chdir","nxsim.h","","int","const char *"
"nx_getcwd","nxsim.h","","int","char *","size_t"
"nx_readdir","nxsim.h","","int","const char *","int","char *","size_t"
"nx_kind","nxsim.h","","int","const char *"
"nx_spawn","nxsim.h","","int","const char *","const char *","int"
"_exit","nxsim.h","","void","int"
"getpid","nxsim.h","","int"
"waitpid","nxsim.h","","int","pid_t","int *","int"
"nx_argc","nxsim.h","","int"
"nx_arg","nxsim.h","","int","int","char *","size_t"
"nx_setpriority","nxsim.h","","int","int","int"
"sched_yield","nxsim.h","","int"
"nx_ps","nxsim.h","","int","int","char *","size_t"
"nx_thread","nxsim.h","","int","nx_entry_t","int"
"nx_thread_exit","nxsim.h","","void","int"
"nx_join","nxsim.h","","int","int","int *"
"nx_mq_open","nxsim.h","","int","const char *","int","int","int"
"mq_close","nxsim.h","","int","mqd_t"
"mq_unlink","nxsim.h","","int","const char *"
"mq_send","nxsim.h","","int","mqd_t","const char *","size_t","unsigned int"
"mq_receive","nxsim.h","","int","mqd_t","char *","size_t","unsigned int *"
"nx_mq_timedreceive","nxsim.h","","int","mqd_t","char *","size_t","unsigned int *","int"
"nx_sem_open","nxsim.h","","int","const char *","int","int"
"nx_sem_wait","nxsim.h","","int","int"
"nx_sem_trywait","nxsim.h","","int","int"
"nx_sem_post","nxsim.h","","int","int"
"nx_sem_close","nxsim.h","","int","int"
"nx_sleep","nxsim.h","","int","int"
"nx_ticks","nxsim.h","","int"
"nx_getenv","nxsim.h","","int","const char *","char *","size_t"
"setenv","nxsim.h","","int","const char *","const char *","int"
"unsetenv","nxsim.h","","int","const char *"
"nx_env","nxsim.h","","int","int","char *","size_t"
"get_errno","nxsim.h","","int"
"#;

pub const STANDARD_LISTING: &str =
    "16 write word in len 00060693 00058613 00050593 01000513 00000073 00008067
17 read word out len 00060693 00058613 00050593 01100513 00000073 00008067
18 open text word word 00060693 00058613 00050593 01200513 00000073 00008067
19 close word 00050593 01300513 00000073 00008067
20 lseek word word word 00060693 00058613 00050593 01400513 00000073 00008067
21 dup word 00050593 01500513 00000073 00008067
22 dup2 word word 00058613 00050593 01600513 00000073 00008067
23 unlink text 00050593 01700513 00000073 00008067
24 mkdir text word 00058613 00050593 01800513 00000073 00008067
25 rmdir text 00050593 01900513 00000073 00008067
26 rename text text 00058613 00050593 01a00513 00000073 00008067
27 chdir text 00050593 01b00513 00000073 00008067
28 nx_getcwd out len 00058613 00050593 01c00513 00000073 00008067
29 nx_readdir text word out len 00068713 00060693 00058613 00050593 01d00513 00000073 00008067
30 nx_kind text 00050593 01e00513 00000073 00008067
31 nx_spawn text text word 00060693 00058613 00050593 01f00513 00000073 00008067
32 _exit word 00050593 02000513 00000073 00008067
33 getpid 02100513 00000073 00008067
34 waitpid word out4 word 00060693 00058613 00050593 02200513 00000073 00008067
35 nx_argc 02300513 00000073 00008067
36 nx_arg word out len 00060693 00058613 00050593 02400513 00000073 00008067
37 nx_setpriority word word 00058613 00050593 02500513 00000073 00008067
38 sched_yield 02600513 00000073 00008067
39 nx_ps word out len 00060693 00058613 00050593 02700513 00000073 00008067
40 nx_thread word word 00058613 00050593 02800513 00000073 00008067
41 nx_thread_exit word 00050593 02900513 00000073 00008067
42 nx_join word out4 00058613 00050593 02a00513 00000073 00008067
43 nx_mq_open text word word word 00068713 00060693 00058613 00050593 02b00513 00000073 00008067
44 mq_close word 00050593 02c00513 00000073 00008067
45 mq_unlink text 00050593 02d00513 00000073 00008067
46 mq_send word in len word 00068713 00060693 00058613 00050593 02e00513 00000073 00008067
47 mq_receive word out len out4 00068713 00060693 00058613 00050593 02f00513 00000073 00008067
48 nx_mq_timedreceive word out len out4 word 00070793 00068713 00060693 00058613 00050593 03000513 00000073 00008067
49 nx_sem_open text word word 00060693 00058613 00050593 03100513 00000073 00008067
50 nx_sem_wait word 00050593 03200513 00000073 00008067
51 nx_sem_trywait word 00050593 03300513 00000073 00008067
52 nx_sem_post word 00050593 03400513 00000073 00008067
53 nx_sem_close word 00050593 03500513 00000073 00008067
54 nx_sleep word 00050593 03600513 00000073 00008067
55 nx_ticks 03700513 00000073 00008067
56 nx_getenv text out len 00060693 00058613 00050593 03800513 00000073 00008067
57 setenv text text word 00060693 00058613 00050593 03900513 00000073 00008067
58 unsetenv text 00050593 03a00513 00000073 00008067
59 nx_env word out len 00060693 00058613 00050593 03b00513 00000073 00008067
60 get_errno 03c00513 00000073 00008067
";
