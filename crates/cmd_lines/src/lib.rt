//! Reads lines of external commands. [`parse_line`] reads one line. [`Lines`] takes a text in pieces and returns the
//! items of its lines in order, however the text is cut (`specs/Items.antt`, `specs/Reader.antt`). [`Skipping`] skips
//! the lines up to a text's n-th command (`specs/Skips.antt`).
#![tactic(auto)]

mod command;
mod copies;
mod fault;
mod fields;
mod front;
mod item;
mod kept;
mod last_number;
mod leading;
mod line_item;
mod lines;
mod parse;
mod phase;
mod plain;
mod skip;
mod split;
mod step;
mod theorems;

pub use fault::LineFault;
pub use item::{Item, Put};
pub use last_number::LastNumber;
pub use leading::number_up_to;
pub use lines::{Lines, MOST_FED};
pub use parse::{parse_line, parse_next};
pub use skip::{Skip, Skipped, Skipping};
pub use theorems::{
    a_canonical_line_is_one_item, canonical_is_no_longer, canonical_spells_one,
    faults_are_of_lines, first_fault_is_one, given_come_first, item_is_exact, items_by_ending,
    items_of_lines, lines_agree, parts_of_items, skipped_are_first, skipped_are_one,
    skipping_has_fewer, text_that_grows,
};
