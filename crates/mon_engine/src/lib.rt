//! The monitor: it applies commands to the state of hosts, services, contacts, comments and downtimes, and makes the
//! report on that state. The rules are definitions over one record, `World` of `specs/World.antt`, one file for each
//! subject; the code has files for the same subjects.
#![tactic(auto)]

mod acknowledgements;
mod act;
mod by_clock;
mod clock;
mod custom_notices;
mod downtime_lines;
mod downtimes;
mod effects;
mod ends;
mod figures;
mod laws;
mod lines;
mod monitor;
mod notice;
mod notice_laws;
mod notice_lines;
mod notices;
mod object;
mod objects;
mod outcome;
mod parts;
mod replaying;
mod report;
mod results;
mod saved_laws;
mod state;
mod status;
mod stop;
mod switches;
mod target;
mod telling;
mod withheld;
mod words;

pub use ends::{Owed, first_owed, presumed_owed};
pub use figures::Figures;
pub use laws::{
    acknowledgements_stand, comments_stand, doubled_comments_show, downtimes_keep_their_time,
    downtimes_stand, entries_touch_nobody_else, law_of_the_clock, nothing_is_counted_at_first,
    rejected_entries_change_nothing, suppressed_problems_are_not_told,
};
pub use lines::{Field, put_fields, put_line, put_word};
pub use monitor::Monitor;
pub use notice_laws::{
    a_problem_is_told, a_recovery_is_told, no_problem_is_told_twice, nobody_is_forgotten,
    only_who_may_be_told_is_told, silence_is_kept, the_end_goes_to_who_heard_the_beginning,
};
pub use object::{Acknowledgement, Moments, Object};
pub use objects::initial_objects;
pub use outcome::{EngineFault, Outcome, Reason};
pub use parts::{Misfit, Parts, ResumeFault};
pub use replaying::replay;
pub use saved_laws::{a_world_of_entries_is_saved, going_on_changes_nothing};
pub use state::GREATEST_BEFORE;
pub use switches::Program;
pub use telling::each_entry_is_told;
pub use withheld::Withheld;
pub use words::{acknowledgement_text, withheld_text};
