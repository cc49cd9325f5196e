//! Inputs of the program and what it prints for each: the profile's worked examples, whole outputs, journals and faults
//! of a run.
mod journals;

use super::{HOST, THREE, UNTOLD, WEB, compare, joined, lines_of, output_of};
use cmd_live::System;
use std::alloc::{AllocError, AllocGlobal, Global};
use std::marker::Send;
use std::process::Abort;
use std::test::Fail;

/// The worked inventory, with soft hosts.
const SOFT_WEB: &[u8] = b"contact;ann;d,u,r,s;w,u,c,r,s
contact;bob;d,r;c,r
host;web;3;1800;d,u,r,s;ann
service;web;http;3;600;w,u,c,r,s;ann
escalation;web;http;2;0;300;c,r;bob
option;passive_host_checks_are_soft;1
";

struct Row {
    name: &'static str,
    words: &'static [&'static str],
    /// The input: an inventory, and the rest from the line `---` on.
    inventory: &'static [u8],
    rest: &'static [u8],
    status: u8,
    /// The kinds of lines of the report that are compared; empty for all lines.
    kinds: &'static [&'static [u8]],
    /// All lines of these kinds, and all lines after the report.
    output: &'static [u8],
}

/// Problems and acknowledgements.
const PROBLEMS: &[Row] = &[
    Row {
        name: "an empty feed",
        words: &["bundle"],
        inventory: WEB,
        rest: b"---\n",
        status: 0,
        kinds: &[],
        output: b"clock;0\nprogram;1;1;1\nhost;web;UP;HARD;1;0;0;0;1;1;\nservice;web;http;OK;HARD;1;0;0;0;1;1;\ncontact;ann;1;1\ncontact;bob;1;1\nfeed;0;0;whole\n",
    },
    Row {
        name: "an escalated problem and its recovery, with the figures",
        words: &["--figures"],
        inventory: WEB,
        rest: b"---\n[100] PROCESS_SERVICE_CHECK_RESULT;web;http;2;down\n[160] PROCESS_SERVICE_CHECK_RESULT;web;http;2;down\n[220] PROCESS_SERVICE_CHECK_RESULT;web;http;2;down\n[500] PROCESS_SERVICE_CHECK_RESULT;web;http;2;down\n[820] PROCESS_SERVICE_CHECK_RESULT;web;http;2;down\n[1119] PROCESS_SERVICE_CHECK_RESULT;web;http;2;down\n[1120] PROCESS_SERVICE_CHECK_RESULT;web;http;2;down\n[1200] PROCESS_SERVICE_CHECK_RESULT;web;http;0;ok\n",
        status: 0,
        kinds: &[b"service", b"notice"],
        output: b"service;web;http;OK;HARD;1;0;0;0;1;1;ok\nnotice;220;PROBLEM;web;http;CRITICAL;1;ann\nnotice;820;PROBLEM;web;http;CRITICAL;2;bob\nnotice;1120;PROBLEM;web;http;CRITICAL;3;bob\nnotice;1200;RECOVERY;web;http;OK;3;bob\nfeed;0;8;whole\nfigures;8;0;0;0\n",
    },
    Row {
        name: "a comment behind carriage returns",
        words: &["--journal"],
        inventory: WEB,
        rest: b"---\n[100] ADD_HOST_COMMENT;web;1;ann;a;b;c\r\r\n",
        status: 0,
        kinds: &[b"comment"],
        output: b"comment;1;web;;user;1;100;ann;a;b;c\nfeed;0;1;whole\n---\njournal;2\n100 0 1 [100] ADD_HOST_COMMENT;web;1;ann;a;b;c\n",
    },
    Row {
        name: "a sticky acknowledgement silences another code",
        words: &["--figures"],
        inventory: WEB,
        rest: b"---\n[100] PROCESS_SERVICE_CHECK_RESULT;web;http;1;slow\n[110] PROCESS_SERVICE_CHECK_RESULT;web;http;1;slow\n[120] PROCESS_SERVICE_CHECK_RESULT;web;http;1;slow\n[130] ACKNOWLEDGE_SVC_PROBLEM;web;http;2;0;0;ann;seen\n[140] PROCESS_SERVICE_CHECK_RESULT;web;http;2;down\n",
        status: 0,
        kinds: &[b"comment", b"service", b"notice"],
        output: b"service;web;http;CRITICAL;HARD;3;2;0;1;1;1;down\ncomment;1;web;http;ack;0;130;ann;seen\nnotice;120;PROBLEM;web;http;WARNING;1;ann\nfeed;0;5;whole\nfigures;5;1;1;0\n",
    },
    Row {
        name: "a normal acknowledgement goes with another code",
        words: &[],
        inventory: WEB,
        rest: b"---\n[100] PROCESS_SERVICE_CHECK_RESULT;web;http;1;slow\n[110] PROCESS_SERVICE_CHECK_RESULT;web;http;1;slow\n[120] PROCESS_SERVICE_CHECK_RESULT;web;http;1;slow\n[130] ACKNOWLEDGE_SVC_PROBLEM;web;http;1;0;0;ann;seen\n[140] PROCESS_SERVICE_CHECK_RESULT;web;http;2;down\n",
        status: 0,
        kinds: &[b"comment", b"service", b"notice"],
        output: b"service;web;http;CRITICAL;HARD;3;0;0;2;1;1;down\nnotice;120;PROBLEM;web;http;WARNING;1;ann\nnotice;140;PROBLEM;web;http;CRITICAL;2;bob\nfeed;0;5;whole\n",
    },
    Row {
        name: "an acknowledgement of a host that is up",
        words: &["--journal"],
        inventory: WEB,
        rest: b"---\n[100] ACKNOWLEDGE_HOST_PROBLEM;web;2;1;1;ann;x\n",
        status: 0,
        kinds: &[b"rejected"],
        output: b"rejected;0;1;6\nfeed;0;1;whole\n---\njournal;2\n100 0 1 [100] ACKNOWLEDGE_HOST_PROBLEM;web;2;1;1;ann;x\n",
    },
];

/// Downtimes, faulty lines and a clock that falls.
const DOWNTIMES: &[Row] = &[
    Row {
        name: "a flexible downtime and the problem behind it",
        words: &[],
        inventory: WEB,
        rest: b"---\n[900] SCHEDULE_SVC_DOWNTIME;web;http;1000;2000;0;0;600;ann;work\n[1100] PROCESS_SERVICE_CHECK_RESULT;web;http;2;down\n[1160] PROCESS_SERVICE_CHECK_RESULT;web;http;2;down\n[1220] PROCESS_SERVICE_CHECK_RESULT;web;http;2;down\n[1820] PROCESS_SERVICE_CHECK_RESULT;web;http;2;down\n",
        status: 0,
        kinds: &[b"notice"],
        output: b"notice;1220;DOWNTIMESTART;web;http;CRITICAL;0;ann\nnotice;1820;DOWNTIMEEND;web;http;CRITICAL;0;ann\nnotice;1820;PROBLEM;web;http;CRITICAL;1;ann\nfeed;0;5;whole\n",
    },
    Row {
        name: "a trigger and what it starts",
        words: &[],
        inventory: WEB,
        rest: b"---\n[900] SCHEDULE_HOST_DOWNTIME;web;1000;2000;1;0;0;ann;move\n[910] SCHEDULE_SVC_DOWNTIME;web;http;1000;3000;0;1;100;ann;move\n[2500] RESTART_PROGRAM\n",
        status: 0,
        kinds: &[b"notice"],
        output: b"notice;1000;DOWNTIMESTART;web;;UP;0;ann\nnotice;1000;DOWNTIMESTART;web;http;OK;0;ann\nnotice;1100;DOWNTIMEEND;web;http;OK;0;ann\nnotice;2000;DOWNTIMEEND;web;;UP;0;ann\nfeed;0;3;whole\n",
    },
    Row {
        name: "a trigger that is cancelled",
        words: &[],
        inventory: WEB,
        rest: b"---\n[900] SCHEDULE_HOST_DOWNTIME;web;1000;2000;1;0;0;ann;move\n[910] SCHEDULE_SVC_DOWNTIME;web;http;1000;3000;0;1;100;ann;move\n[1050] DEL_HOST_DOWNTIME;1\n[1060] DEL_SVC_DOWNTIME;2\n",
        status: 0,
        kinds: &[b"notice", b"rejected", b"downtime"],
        output: b"rejected;0;4;5\nnotice;1000;DOWNTIMESTART;web;;UP;0;ann\nnotice;1000;DOWNTIMESTART;web;http;OK;0;ann\nnotice;1050;DOWNTIMECANCELLED;web;;UP;0;ann\nnotice;1050;DOWNTIMECANCELLED;web;http;OK;0;ann\nfeed;0;4;whole\n",
    },
    Row {
        name: "plans that are refused",
        words: &[],
        inventory: WEB,
        rest: b"---\n[100] SCHEDULE_HOST_DOWNTIME;web;200;200;1;0;0;a;b\n[100] SCHEDULE_HOST_DOWNTIME;web;50;100;1;0;0;a;b\n[100] SCHEDULE_HOST_DOWNTIME;web;200;300;1;99;0;a;b\n[100] SCHEDULE_HOST_DOWNTIME;web;200;300;0;99;0;a;b\n[100] SCHEDULE_HOST_DOWNTIME;web;100;150;1;0;0;a;b\n[150] SCHEDULE_HOST_DOWNTIME;web;200;300;1;1;0;a;b\n",
        status: 0,
        kinds: &[b"rejected", b"notice"],
        output: b"rejected;0;1;7\nrejected;0;2;8\nrejected;0;3;10\nrejected;0;4;9\nrejected;0;6;11\nnotice;100;DOWNTIMESTART;web;;UP;0;ann\nnotice;150;DOWNTIMEEND;web;;UP;0;ann\nfeed;0;6;whole\n",
    },
    Row {
        name: "eight faulty lines",
        words: &[],
        inventory: WEB,
        rest: b"---\n100] X\n[1x] X\n[1]X\n[1] NOPE\n[1] DEL_HOST_COMMENT\n[1] DEL_ALL_HOST_COMMENTS;\n[1] DEL_HOST_COMMENT;1x\n[1] PROCESS_HOST_CHECK_RESULT;web;3;x\n",
        status: 1,
        kinds: &[b"comment", b"notice"],
        output: b"feed;0;0;whole\nrefused;0;1;3;0\nrefused;0;2;4;0\nrefused;0;3;5;0\nrefused;0;4;6;0\nrefused;0;5;7;1\nrefused;0;6;8;1\nrefused;0;7;9;1\nrefused;0;8;9;2\n",
    },
    Row {
        name: "a clock that falls",
        words: &[],
        inventory: WEB,
        rest: b"---\n[500] ADD_HOST_COMMENT;web;1;a;x\n[400] ADD_HOST_COMMENT;web;1;a;y\n",
        status: 0,
        kinds: &[b"clock", b"comment"],
        output: b"clock;500\ncomment;1;web;;user;1;500;a;x\ncomment;2;web;;user;1;500;a;y\nfeed;0;2;whole\n",
    },
];

/// Switches, delays, numbers, a restart.
const SWITCHES: &[Row] = &[
    Row {
        name: "a delay, and a notification number that is set",
        words: &[],
        inventory: WEB,
        rest: b"---\n[100] PROCESS_SERVICE_CHECK_RESULT;web;http;2;down\n[110] PROCESS_SERVICE_CHECK_RESULT;web;http;2;down\n[120] PROCESS_SERVICE_CHECK_RESULT;web;http;2;down\n[130] DELAY_SVC_NOTIFICATION;web;http;800\n[720] PROCESS_SERVICE_CHECK_RESULT;web;http;2;down\n[800] PROCESS_SERVICE_CHECK_RESULT;web;http;2;down\n[810] SET_SVC_NOTIFICATION_NUMBER;web;http;0\n[820] PROCESS_SERVICE_CHECK_RESULT;web;http;2;down\n",
        status: 0,
        kinds: &[b"notice"],
        output: b"notice;120;PROBLEM;web;http;CRITICAL;1;ann\nnotice;800;PROBLEM;web;http;CRITICAL;2;bob\nnotice;820;PROBLEM;web;http;CRITICAL;1;ann\nfeed;0;8;whole\n",
    },
    Row {
        name: "switches and unknown names",
        words: &[],
        inventory: WEB,
        rest: b"---\n[1] DISABLE_PASSIVE_SVC_CHECKS;web;http\n[2] PROCESS_SERVICE_CHECK_RESULT;web;http;2;x\n[3] ADD_HOST_COMMENT;db;1;a;x\n[4] ADD_SVC_COMMENT;web;ssh;1;a;x\n[5] ENABLE_CONTACT_HOST_NOTIFICATIONS;eve\n[6] DISABLE_NOTIFICATIONS\n[7] STOP_ACCEPTING_PASSIVE_HOST_CHECKS\n[8] PROCESS_HOST_CHECK_RESULT;web;1;x\n",
        status: 0,
        kinds: &[b"program", b"service", b"rejected"],
        output: b"program;0;0;1\nservice;web;http;OK;HARD;1;0;0;0;1;0;\nrejected;0;2;12\nrejected;0;3;1\nrejected;0;4;2\nrejected;0;5;3\nrejected;0;8;12\nfeed;0;8;whole\n",
    },
    Row {
        name: "a host and its service",
        words: &[],
        inventory: WEB,
        rest: b"---\n[100] PROCESS_HOST_CHECK_RESULT;web;1;dead\n[110] PROCESS_SERVICE_CHECK_RESULT;web;http;2;down\n[120] ACKNOWLEDGE_HOST_PROBLEM;web;2;1;1;ann;on it\n[130] PROCESS_HOST_CHECK_RESULT;web;0;up\n",
        status: 0,
        kinds: &[b"host", b"service", b"comment", b"notice"],
        output: b"host;web;UP;HARD;1;0;0;0;1;1;up\nservice;web;http;CRITICAL;HARD;1;0;0;0;1;1;down\ncomment;1;web;;ack;1;120;ann;on it\nnotice;100;PROBLEM;web;;DOWN;1;ann\nnotice;120;ACKNOWLEDGEMENT;web;;DOWN;1;ann\nnotice;130;RECOVERY;web;;UP;1;ann\nfeed;0;4;whole\n",
    },
    Row {
        name: "a restart, and a downtime of each service",
        words: &[],
        inventory: WEB,
        rest: b"---\n[10] ADD_HOST_COMMENT;web;0;a;x\n[20] ADD_SVC_COMMENT;web;http;1;a;y\n[30] RESTART_PROGRAM\n[40] DEL_HOST_COMMENT;2\n[50] SCHEDULE_HOST_SVC_DOWNTIME;web;200;300;1;0;0;a;b\n",
        status: 0,
        kinds: &[b"comment", b"downtime", b"rejected"],
        output: b"comment;2;web;http;user;1;20;a;y\ndowntime;1;web;http;pending;200;300;1;0;0;a;b\nrejected;0;4;4\nfeed;0;5;whole\n",
    },
    Row {
        name: "a flexible downtime that never starts",
        words: &[],
        inventory: WEB,
        rest: b"---\n[100] SCHEDULE_HOST_DOWNTIME;web;200;300;0;0;50;a;b\n[310] RESTART_PROGRAM\n[320] DEL_HOST_DOWNTIME;1\n",
        status: 0,
        kinds: &[b"notice", b"downtime", b"rejected"],
        output: b"rejected;0;3;5\nfeed;0;3;whole\n",
    },
    Row {
        name: "a service whose passive checks are switched off",
        words: &[],
        inventory: UNTOLD,
        rest: b"---\n[1] PROCESS_SERVICE_CHECK_RESULT;web;http;2;x\n[2] PROCESS_SERVICE_CHECK_RESULT;web;http;2;x\n[3] DISABLE_PASSIVE_SVC_CHECKS;web;http\n[4] PROCESS_SERVICE_CHECK_RESULT;web;http;2;y\n[5] ENABLE_PASSIVE_SVC_CHECKS;web;http\n[6] PROCESS_SERVICE_CHECK_RESULT;web;http;2;z\n",
        status: 0,
        kinds: &[b"rejected", b"service", b"notice"],
        output: b"service;web;http;CRITICAL;HARD;3;0;0;0;1;1;z\nrejected;0;4;12\nfeed;0;6;whole\n",
    },
];

/// States, custom notices, soft hosts.
const STATES: &[Row] = &[
    Row {
        name: "a host that is unreachable makes its service hard",
        words: &[],
        inventory: UNTOLD,
        rest: b"---\n[1] PROCESS_SERVICE_CHECK_RESULT;web;http;2;x\n[2] PROCESS_SERVICE_CHECK_RESULT;web;http;2;x\n[3] DISABLE_PASSIVE_SVC_CHECKS;web;http\n[4] PROCESS_SERVICE_CHECK_RESULT;web;http;2;y\n[5] ENABLE_PASSIVE_SVC_CHECKS;web;http\n[6] PROCESS_SERVICE_CHECK_RESULT;web;http;2;z\n[7] PROCESS_HOST_CHECK_RESULT;web;2;gone\n[8] PROCESS_SERVICE_CHECK_RESULT;web;http;0;ok\n[9] PROCESS_SERVICE_CHECK_RESULT;web;http;1;w\n",
        status: 0,
        kinds: &[b"host", b"service", b"rejected", b"notice"],
        output: b"host;web;UNREACHABLE;HARD;1;0;0;0;1;1;gone\nservice;web;http;WARNING;HARD;1;0;0;0;1;1;w\nrejected;0;4;12\nfeed;0;9;whole\n",
    },
    Row {
        name: "a sticky acknowledgement of a soft problem",
        words: &[],
        inventory: UNTOLD,
        rest: b"---\n[1] PROCESS_SERVICE_CHECK_RESULT;web;http;1;w\n[2] ACKNOWLEDGE_SVC_PROBLEM;web;http;2;1;0;ann;s\n[3] PROCESS_SERVICE_CHECK_RESULT;web;http;2;c\n",
        status: 0,
        kinds: &[b"service", b"comment", b"notice"],
        output: b"service;web;http;CRITICAL;SOFT;2;2;0;0;1;1;c\ncomment;1;web;http;ack;0;2;ann;s\nfeed;0;3;whole\n",
    },
    Row {
        name: "a normal acknowledgement in its place",
        words: &[],
        inventory: UNTOLD,
        rest: b"---\n[1] PROCESS_SERVICE_CHECK_RESULT;web;http;1;w\n[2] ACKNOWLEDGE_SVC_PROBLEM;web;http;2;1;0;ann;s\n[3] PROCESS_SERVICE_CHECK_RESULT;web;http;2;c\n[4] ACKNOWLEDGE_SVC_PROBLEM;web;http;1;1;1;ann;t\n[5] PROCESS_SERVICE_CHECK_RESULT;web;http;1;w\n",
        status: 0,
        kinds: &[b"service", b"comment", b"notice"],
        output: b"service;web;http;WARNING;HARD;3;0;0;0;1;1;w\ncomment;2;web;http;ack;1;4;ann;t\nfeed;0;5;whole\n",
    },
    Row {
        name: "custom notices",
        words: &[],
        inventory: WEB,
        rest: b"---\n[100] SEND_CUSTOM_SVC_NOTIFICATION;web;http;0;ann;hi\n[110] SEND_CUSTOM_SVC_NOTIFICATION;web;http;1;ann;hi\n[120] SET_SVC_NOTIFICATION_NUMBER;web;http;1\n[130] SEND_CUSTOM_SVC_NOTIFICATION;web;http;4;ann;hi\n[140] DISABLE_NOTIFICATIONS\n[150] SEND_CUSTOM_SVC_NOTIFICATION;web;http;0;ann;hi\n[160] SEND_CUSTOM_SVC_NOTIFICATION;web;http;2;ann;hi\n[170] SEND_CUSTOM_HOST_NOTIFICATION;db;0;a;x\n",
        status: 0,
        kinds: &[b"service", b"rejected", b"notice"],
        output: b"service;web;http;OK;HARD;1;0;0;2;1;1;\nrejected;0;8;1\nnotice;100;CUSTOM;web;http;OK;0;ann\nnotice;110;CUSTOM;web;http;OK;0;ann,bob\nnotice;130;CUSTOM;web;http;OK;2;bob\nnotice;160;CUSTOM;web;http;OK;2;bob\nfeed;0;8;whole\n",
    },
    Row {
        name: "a soft host at its greatest attempt",
        words: &[],
        inventory: SOFT_WEB,
        rest: b"---\n[100] PROCESS_HOST_CHECK_RESULT;web;1;x\n[110] PROCESS_HOST_CHECK_RESULT;web;1;x\n[120] PROCESS_HOST_CHECK_RESULT;web;1;x\n",
        status: 0,
        kinds: &[b"host", b"notice"],
        output: b"host;web;DOWN;HARD;3;0;0;1;1;1;x\nnotice;120;PROBLEM;web;;DOWN;1;ann\nfeed;0;3;whole\n",
    },
    Row {
        name: "a soft host",
        words: &[],
        inventory: SOFT_WEB,
        rest: b"---\n[100] PROCESS_HOST_CHECK_RESULT;web;1;x\n[110] PROCESS_HOST_CHECK_RESULT;web;1;x\n",
        status: 0,
        kinds: &[b"host", b"notice"],
        output: b"host;web;DOWN;SOFT;2;0;0;0;1;1;x\nfeed;0;2;whole\n",
    },
    Row {
        name: "a downtime that starts just before the greatest time",
        words: &[],
        inventory: WEB,
        rest: b"---\n[0] RESTART_PROGRAM\n[1099511627774] SCHEDULE_HOST_DOWNTIME;web;0;1099511627775;1;0;0;a;b\n[1099511627775] SCHEDULE_HOST_DOWNTIME;web;0;1099511627775;1;0;0;a;b\n",
        status: 0,
        kinds: &[b"clock", b"rejected", b"notice"],
        output: b"clock;1099511627775\nrejected;0;3;8\nnotice;1099511627774;DOWNTIMESTART;web;;UP;0;ann\nnotice;1099511627775;DOWNTIMEEND;web;;UP;0;ann\nfeed;0;3;whole\n",
    },
];

/// Lines and separators.
const LINES: &[Row] = &[
    Row {
        name: "lines at fault at the ends of their parts",
        words: &[],
        inventory: WEB,
        rest: b"---\n [1] X\n[1\n[] X\n[-1] X\n[1099511627776] X\n[00000000000001] X\n[1]\n[1]\tX\n[1] \n[1] restart_program\n[1] DEL_HOST_COMMENT;\n",
        status: 1,
        kinds: &[b"comment", b"notice"],
        output: b"feed;0;0;whole\nrefused;0;1;3;0\nrefused;0;2;4;0\nrefused;0;3;4;0\nrefused;0;4;4;0\nrefused;0;5;4;0\nrefused;0;6;4;0\nrefused;0;7;5;0\nrefused;0;8;5;0\nrefused;0;9;6;0\nrefused;0;10;6;0\nrefused;0;11;9;1\n",
    },
    Row {
        name: "thirteen digits, a carriage return behind a name, and the bytes 0 and 255",
        words: &["--journal"],
        inventory: WEB,
        rest: b"---\n[0000000000001] RESTART_PROGRAM;x\n[1] ADD_HOST_COMMENT;web\r;1;;\n[1] ADD_HOST_COMMENT;web;1;a;\x00\xff\n",
        status: 0,
        kinds: &[b"comment"],
        output: b"comment;1;web;;user;1;1;;\ncomment;2;web;;user;1;1;a;\x00\xff\nfeed;0;3;whole\n---\njournal;2\n1 0 1 [1] RESTART_PROGRAM\n1 0 2 [1] ADD_HOST_COMMENT;web;1;;\n1 0 3 [1] ADD_HOST_COMMENT;web;1;a;\x00\xff\n",
    },
    Row {
        name: "a last line without its line feed",
        words: &["--journal"],
        inventory: WEB,
        rest: b"---\n[1] RESTART_PROGRAM\n[2] ADD_HOST_COMMENT;web;1;a;ab",
        status: 0,
        kinds: &[b"comment"],
        output: b"comment;1;web;;user;1;2;a;ab\nfeed;0;2;whole\n---\njournal;2\n1 0 1 [1] RESTART_PROGRAM\n2 0 2 [2] ADD_HOST_COMMENT;web;1;a;ab\n",
    },
    Row {
        name: "a separator alone",
        words: &[],
        inventory: b"",
        rest: b"---",
        status: 0,
        kinds: &[],
        output: b"clock;0\nprogram;1;1;1\nfeed;0;0;whole\n",
    },
    Row {
        name: "three commands on a host, with the figures at their end and their journal",
        words: &["--figures", "--journal"],
        inventory: HOST,
        rest: THREE,
        status: 0,
        kinds: &[],
        output: b"clock;110\nprogram;1;1;1\nhost;web;DOWN;HARD;1;0;0;0;1;1;no ping\ncomment;1;web;;user;1;100;ann;hello\nrejected;0;3;4\nfeed;0;3;whole\nfigures;3;1;0;0\n---\njournal;2\n100 0 1 [100] ADD_HOST_COMMENT;web;1;ann;hello\n110 0 2 [110] PROCESS_HOST_CHECK_RESULT;web;1;no ping\n110 0 3 [105] DEL_HOST_COMMENT;2\n",
    },
    Row {
        name: "a refused line is not journaled",
        words: &["--journal"],
        inventory: b"",
        rest: b"---\n[1] RESTART_PROGRAM\n[2] NOPE\n\n[003]  RESTART_PROGRAM;more\r\n",
        status: 1,
        kinds: &[],
        output: b"clock;3\nprogram;1;1;1\nfeed;0;2;whole\nrefused;0;2;6;0\n---\njournal;2\n1 0 1 [1] RESTART_PROGRAM\n3 0 2 [3] RESTART_PROGRAM\n",
    },
];

/// The part of an output that is compared.
fn compared(alloc: Global, row: &Row, output: &[u8]) -> Result<Vec<u8>, AllocError> {
    if row.kinds.is_empty() {
        Vec::from_slice(alloc, output)
    } else {
        lines_of(alloc, output, row.kinds)
    }
}

/// Asserts the exit status and the lines of each row.
fn check_rows<R: AllocGlobal + Abort + System + Sync>(
    rt: &R,
    rows: &[Row],
) -> Result<(), AllocError>
where
    R::File: Send,
    R::Dir: Send,
    R::Stream: Send,
{
    for row in rows {
        let input = joined(rt.alloc(), &[row.inventory, row.rest])?;
        let output = output_of(rt, row.words, &input, row.status);
        let found = compared(rt.alloc(), row, &output)?;
        compare(rt, &[row.name], &found, row.output);
    }
    Ok(())
}

#[test]
fn problems_and_acknowledgements(rt: HostRuntime) -> Result<(), Fail> {
    check_rows(&rt, PROBLEMS)?;
    Ok(())
}

#[test]
fn downtimes_and_clocks(rt: HostRuntime) -> Result<(), Fail> {
    check_rows(&rt, DOWNTIMES)?;
    Ok(())
}

#[test]
fn switches_and_numbers(rt: HostRuntime) -> Result<(), Fail> {
    check_rows(&rt, SWITCHES)?;
    Ok(())
}

#[test]
fn states_and_custom_notices(rt: HostRuntime) -> Result<(), Fail> {
    check_rows(&rt, STATES)?;
    Ok(())
}

#[test]
fn lines_and_separators(rt: HostRuntime) -> Result<(), Fail> {
    check_rows(&rt, LINES)?;
    Ok(())
}
