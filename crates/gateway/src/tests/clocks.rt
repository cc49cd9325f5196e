//! A system's clock that jumps ahead: its time is used again once five ticks agree.
use cmd_live::{Agreement, Clocks, Comparison};
use std::test::Fail;

/// The readings of the clocks at each tick, and the result. A tick comes every 10 seconds.
const ROWS: &[(u64, u64, Agreement)] = &[
    (1_010, 10, Agreement::Agrees),
    // A tick that comes late, and a clock that is set by a minute.
    (1_500, 500, Agreement::Agrees),
    (1_570, 510, Agreement::Agrees),
    // A clock that goes back.
    (500, 520, Agreement::Agrees),
    (510, 530, Agreement::Agrees),
    // An hour and a minute ahead, for five ticks.
    (4_180, 540, Agreement::Jumped(3_660)),
    (4_190, 550, Agreement::Doubtful),
    (4_200, 560, Agreement::Doubtful),
    (4_210, 570, Agreement::Doubtful),
    (4_220, 580, Agreement::Doubtful),
    (4_230, 590, Agreement::Agrees),
    // A jump, and before five ticks have agreed another one, and then back.
    (4_301, 600, Agreement::Jumped(61)),
    (4_311, 610, Agreement::Doubtful),
    (5_000, 620, Agreement::Jumped(679)),
    (4_260, 630, Agreement::Doubtful),
    (4_270, 640, Agreement::Doubtful),
    (4_280, 650, Agreement::Doubtful),
    (4_290, 660, Agreement::Doubtful),
    (4_300, 670, Agreement::Agrees),
];

#[test]
fn a_clock_that_jumps_ahead_is_used_again_after_five_ticks(rt: HostRuntime) -> Result<(), Fail> {
    let mut comparison = Comparison::new(Clocks {
        system: 1_000,
        monotonic: 0,
    });
    for (system, monotonic, agreement) in ROWS {
        let now = Clocks {
            system: *system,
            monotonic: *monotonic,
        };
        assert!(rt; comparison.note(now) == *agreement);
    }
    Ok(())
}
