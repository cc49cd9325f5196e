//! Tests of commands, their lines and the journal, by the calls that `cmd_types`, `cmd_lines` and `cmd_journal` hand
//! out.
#![tactic(auto)]

#[cfg(test)]
mod journal;
#[cfg(test)]
mod lines;
#[cfg(test)]
mod segments;
#[cfg(test)]
mod support;
#[cfg(test)]
mod types;
