//! Tests of the program's options, through the public calls of `cmd_options`.
mod examples;

use cmd_options::{Asked, MOST_READS, Options, RunOptions};

/// Options of a run that ask for nothing but the report.
pub const OPTIONS: Options = Options {
    run: RunOptions {
        capacity: 64,
        piece: 4_096,
        limit: 1_000,
        reads: MOST_READS,
    },
    asked: Asked {
        figures: false,
        journal: false,
    },
};
