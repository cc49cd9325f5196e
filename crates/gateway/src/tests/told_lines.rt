//! The told lines of a state directory, each after its key.
use cmd_live::{ToldWanted, put_told_lines};
use cmd_options::ToldPlace;
use std::test::Fail;

#[test]
fn told_lines_with_their_keys(rt: HostRuntime) -> Result<(), Fail> {
    let alloc = rt.alloc();
    let mut out = Vec::new(alloc);
    let wanted = ToldWanted {
        after: ToldPlace {
            segment: 0,
            line: 1,
        },
        oldest: 200,
    };
    let before = ToldPlace {
        segment: 0,
        line: 0,
    };
    let text = b"rejected;0;1;1\nrejected;0;2;1\nnotice;199;..\nnotice;200;..\nnoti".as_slice();
    let Ok(last) = put_told_lines(alloc, &mut out, wanted, before, text) else {
        return Err(Fail::new("there is memory"));
    };
    assert_eq!(rt; last.line, 4);
    assert_eq!(rt;
        out.as_slice(),
        b"0.2;rejected;0;2;1\n0.4;notice;200;..\n".as_slice()
    );
    Ok(())
}
