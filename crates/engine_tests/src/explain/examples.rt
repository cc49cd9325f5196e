//! The examples that the documentation of the public items has, a test each, with the same lines.
use cmd_answer::{FilesStop, Stop};
use cmd_explain::{
    KnownLine, explain, known_line, put_shown_line, serve_explain, stopped_in_words,
};
use cmd_lines::LineFault;
use mon_inventory::Cause;
use std::test::*;

#[test]
fn a_known_line(rt: HostRuntime) -> Result<(), Fail> {
    let alloc = rt.alloc();
    let known = known_line(alloc, b"gateway: inventory line 2: 7");
    let wanted = KnownLine::Inventory {
        line: 2,
        cause: Cause::UnknownContact,
    };
    assert_eq!(rt; known, Ok(Some(wanted)));
    Ok(())
}

#[test]
fn known_and_unknown_lines(rt: HostRuntime) -> Result<(), Fail> {
    let alloc = rt.alloc();
    let known = known_line(alloc, b"gateway: feed 3: replaced");
    assert_eq!(rt; known, Ok(Some(KnownLine::Replaced { feed: 3 })));
    assert_eq!(rt; known_line(alloc, b"clock;1200"), Ok(None));
    Ok(())
}

#[test]
fn a_text_explained(rt: HostRuntime) -> Result<(), Fail> {
    let alloc = rt.alloc();
    let Ok((text, is_known)) = explain(alloc, b"refused;0;2;3;0\n") else {
        return Err(Fail::new("there is memory"));
    };
    assert_eq!(rt;
        text.as_slice(),
        b"refused;0;2;3;0\n    line 2 of feed 0 is no command: it does not begin with [\n".as_slice()
    );
    assert!(rt; is_known);
    Ok(())
}

#[test]
fn words_explained(rt: HostRuntime) -> Result<(), Fail> {
    let alloc = rt.alloc();
    let mut input = b"".as_slice();
    let mut output = Vec::new(alloc);
    let words = ["gateway:", "inventory", "line", "2:", "7"];
    let Ok(status) = serve_explain(alloc, &words, &mut input, &mut output) else {
        return Err(Fail::new("there is memory"));
    };
    assert_eq!(rt; status, 0);
    assert_eq!(rt;
        output.as_slice(),
        b"gateway: inventory line 2: 7\n    line 2 names a contact that no line before it defines\n".as_slice()
    );
    Ok(())
}

#[test]
fn a_stop_in_words(rt: HostRuntime) -> Result<(), Fail> {
    let alloc = rt.alloc();
    let mut errors = Vec::new(alloc);
    let stop = FilesStop::Other(Stop::Inventory { line: 2, cause: 7 });
    let Ok(ended) = stopped_in_words(alloc, stop, &mut errors) else {
        return Err(Fail::new("there is memory"));
    };
    assert_eq!(rt;
        errors.as_slice(),
        b"gateway: inventory line 2: 7\n    line 2 names a contact that no line before it defines\n".as_slice()
    );
    assert_eq!(rt; ended.status, 2);
    Ok(())
}

#[test]
fn a_shown_line(rt: HostRuntime) -> Result<(), Fail> {
    let alloc = rt.alloc();
    let mut out = Vec::new(alloc);
    let line = b"[7]\tRESTART_PROGRAM";
    put_shown_line(&mut out, b"checks", LineFault::NoSpace, line)?;
    let wanted = b"    checks: no space stands behind ]: [7]\\x09RESTART_PROGRAM\n";
    assert_eq!(rt; out.as_slice(), wanted.as_slice());
    Ok(())
}
