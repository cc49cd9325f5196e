//! The usage of the modes: what each mode and each option does. `clap` makes a text of its own, but no contract says
//! what that text is, so no clause could say what is printed.
ghost use Rattle.std.specs.Prelude.{◌≡◌, map};
ghost use Rattle.cmd_words.specs.Usage.{usage_of};

use crate::mode_name::ModeName;

/// The text of the mode `version`: the version of the program, and the toolchain with which it is proved.
///
/// See the example of [`usage_of`].
pub const VERSION_TEXT: &[u8] = b"gateway 0.2.0
rattle-kit-13f logic dac8208d650f15bf
";

const BUNDLE_USAGE: &[u8] =
    b"gateway [bundle] [--figures] [--journal] [--limit N] [--capacity N] [--piece N]
    prints the report on feeds; stdin has an inventory, and each feed after ---
";

const FILES_USAGE: &[u8] = b"gateway files [OPTION of bundle..] INVENTORY FEED..
    prints the report on feeds in files
";

const FOLLOW_USAGE: &[u8] =
    b"gateway follow [--state DIR [--no-sync]] [--drain] [--clock S] [--ahead S]
        [--verbose] [--limit N] [--capacity N] [--piece N] INVENTORY FEED..
    applies commands as they arrive, prints notices at once; FEED - is stdin
";

const REPLAY_USAGE: &[u8] = b"gateway replay [--state DIR] [--limit N]
    prints the report on a journal; stdin has an inventory, a line --- and it
";

const TOLD_USAGE: &[u8] = b"gateway told [--after N.L] [--since S] [--follow] DIR
    prints the lines that a state directory told, line L of told.N behind N.L;
";

const CHECK_USAGE: &[u8] = b"gateway check INVENTORY
    prints how many records an inventory has, or its first fault in words
";

const EXPLAIN_USAGE: &[u8] = b"gateway explain [WORD..]
    says what a line of the program means: the words, or each line of stdin
";

const OTHER_USAGE: &[u8] = b"gateway help
    prints this text
gateway version
    prints the version and the toolchain
";

const REPORT_OPTIONS: &[u8] = b"  --figures     also prints the figures of the run
  --journal     also prints the journal, in the form that replay reads
";

const STATE_OPTION: &[u8] =
    b"  --state DIR   the state directory that follow resumes from, or replay reads
";

const FOLLOW_OPTIONS: &[u8] = b"  --no-sync     with --state, does not sync before lines are printed
  --drain       reads each feed to its present end, then exits
  --clock S     seconds between clock commands, 0 for none; 10, with --drain 0
  --ahead S     longest lead over the system clock without a wait, 0 for no
                bound; 60, with --drain 0
  --verbose     also prints the path and the first bytes of each refused line
";

const LIMIT_OPTION: &[u8] =
    b"  --limit N     most commands of a run, a journal or, with --state, a segment:
                1 to 268,435,455; 1,000,000
";

const RUN_OPTIONS: &[u8] = b"  --capacity N  most batches in the queue: 1 to 1,024; 64
  --piece N     bytes of a read: 1 to 65,536; 4,096
                The number after a semicolon is the default.
";

const TOLD_OPTIONS: &[u8] = b"  --after N.L   begins behind line L of told.N
  --since S     leaves out notices of more than S seconds ago
  --follow      goes on as lines are told
";

/// The parts of the usage of a mode: its words, and what each of its options does. Where no mode is named, and for
/// `help` and `version`, the parts of the usage of all modes, with each option once (profile).
///
/// ```
/// let parts = usage_of(Some(ModeName::Check));
/// assert!(rt; parts[0].starts_with(b"gateway check INVENTORY\n"));
/// assert!(rt; usage_of(None).len() > parts.len());
/// assert!(rt; VERSION_TEXT.starts_with(b"gateway "));
/// ```
pub fn usage_of(mode: Option<ModeName>) -> &'static [&'static [u8]]
    ensures { map (λ part. part.now) result.now ≡ usage_of mode }
{
    match mode {
        Some(ModeName::Bundle) => &[BUNDLE_USAGE, REPORT_OPTIONS, LIMIT_OPTION, RUN_OPTIONS],
        Some(ModeName::Files) => &[FILES_USAGE, REPORT_OPTIONS, LIMIT_OPTION, RUN_OPTIONS],
        Some(ModeName::Replay) => &[REPLAY_USAGE, STATE_OPTION, LIMIT_OPTION],
        Some(ModeName::Follow) => &[
            FOLLOW_USAGE,
            STATE_OPTION,
            FOLLOW_OPTIONS,
            LIMIT_OPTION,
            RUN_OPTIONS,
        ],
        Some(ModeName::Told) => &[TOLD_USAGE, TOLD_OPTIONS],
        Some(ModeName::Check) => &[CHECK_USAGE],
        Some(ModeName::Explain) => &[EXPLAIN_USAGE],
        Some(ModeName::Help | ModeName::Version) | None => &[
            BUNDLE_USAGE,
            FILES_USAGE,
            FOLLOW_USAGE,
            REPLAY_USAGE,
            TOLD_USAGE,
            CHECK_USAGE,
            EXPLAIN_USAGE,
            OTHER_USAGE,
            REPORT_OPTIONS,
            STATE_OPTION,
            FOLLOW_OPTIONS,
            LIMIT_OPTION,
            RUN_OPTIONS,
            TOLD_OPTIONS,
        ],
    }
}
