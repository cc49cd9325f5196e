//! Runs of the program on bundles whose journal is full, and on journals.
use super::super::{HOST, WEB};
use super::{Row, check_rows};
use std::test::Fail;

/// The limit of the journal.
const LIMITS: &[Row] = &[
    Row {
        name: "more commands than the journal may have",
        words: &["bundle", "--limit", "2", "--journal"],
        inventory: WEB,
        rest: b"---\n[1] RESTART_PROGRAM\n[2] RESTART_PROGRAM\n[3] RESTART_PROGRAM\n",
        status: 3,
        kinds: &[],
        output: b"fault;4;0\nfeed;0;3;whole\n---\njournal;2\n1 0 1 [1] RESTART_PROGRAM\n2 0 2 [2] RESTART_PROGRAM\n",
    },
    Row {
        name: "what was published of more commands than the journal may have",
        words: &["--figures", "--limit", "2"],
        inventory: HOST,
        rest: b"---\n[1] PROCESS_HOST_CHECK_RESULT;web;1;dead\n[2] ACKNOWLEDGE_HOST_PROBLEM;web;2;0;0;ann;on it\n[3] PROCESS_HOST_CHECK_RESULT;web;0;up\n",
        status: 3,
        kinds: &[],
        output: b"fault;4;0\nfeed;0;3;whole\nfigures;2;1;1;0\n",
    },
    Row {
        name: "lines that are refused where the commands are too many",
        words: &["--limit=1"],
        inventory: b"",
        rest: b"---\n[1] RESTART_PROGRAM\n[2] NOPE\n[3] RESTART_PROGRAM\n[4] NOPE\n",
        status: 3,
        kinds: &[],
        output: b"fault;4;0\nfeed;0;2;whole\nrefused;0;2;6;0\nrefused;0;4;6;0\n",
    },
    Row {
        name: "as many commands as the journal may have",
        words: &["--limit", "2"],
        inventory: b"",
        rest: b"---\n[1] RESTART_PROGRAM\n[2] RESTART_PROGRAM\n",
        status: 0,
        kinds: &[],
        output: b"clock;2\nprogram;1;1;1\nfeed;0;2;whole\n",
    },
];

/// Journals that are written and replayed.
const JOURNALS: &[Row] = &[
    Row {
        name: "an empty journal that is asked for",
        words: &["--journal"],
        inventory: b"",
        rest: b"---\n",
        status: 0,
        kinds: &[],
        output: b"clock;0\nprogram;1;1;1\nfeed;0;0;whole\n---\njournal;2\n",
    },
    Row {
        name: "an empty journal",
        words: &["replay"],
        inventory: HOST,
        rest: b"---\njournal;2\n",
        status: 0,
        kinds: &[],
        output: b"clock;0\nprogram;1;1;1\nhost;web;UP;HARD;1;0;0;0;1;1;\n",
    },
    Row {
        name: "a journal without any line",
        words: &["replay"],
        inventory: HOST,
        rest: b"---\r\n",
        status: 0,
        kinds: &[],
        output: b"clock;0\nprogram;1;1;1\nhost;web;UP;HARD;1;0;0;0;1;1;\n",
    },
    Row {
        name: "a journal of two senders",
        words: &["replay", "--limit", "4"],
        inventory: HOST,
        rest: b"---\njournal;2\n100 0 1 [100] ADD_HOST_COMMENT;web;1;ann;hello\n110 63 1 [110] PROCESS_HOST_CHECK_RESULT;web;1;no ping\n\n110 0 2 [105] DEL_HOST_COMMENT;2",
        status: 0,
        kinds: &[],
        output: b"clock;110\nprogram;1;1;1\nhost;web;DOWN;HARD;1;0;0;0;1;1;no ping\ncomment;1;web;;user;1;100;ann;hello\nrejected;0;2;4\n",
    },
    Row {
        name: "a journal of two senders without heading",
        words: &["replay", "--limit", "4"],
        inventory: HOST,
        rest: b"---\n0 1 [100] ADD_HOST_COMMENT;web;1;ann;hello\n15 1 [110] PROCESS_HOST_CHECK_RESULT;web;1;no ping\n\n0 2 [105] DEL_HOST_COMMENT;2",
        status: 0,
        kinds: &[],
        output: b"clock;110\nprogram;1;1;1\nhost;web;DOWN;HARD;1;0;0;0;1;1;no ping\ncomment;1;web;;user;1;100;ann;hello\nrejected;0;2;4\n",
    },
];

#[test]
fn limits_of_the_journal(rt: HostRuntime) -> Result<(), Fail> {
    check_rows(&rt, LIMITS)?;
    Ok(())
}

#[test]
fn journals_and_replays(rt: HostRuntime) -> Result<(), Fail> {
    check_rows(&rt, JOURNALS)?;
    Ok(())
}
