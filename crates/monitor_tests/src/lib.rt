//! Tests of the parts of the monitor, by the calls that `mon_inventory`, `mon_checks`, `mon_notes`, `mon_downtime` and
//! `mon_notify` hand out. What the tests share promises nothing: else each would be proved by it anew.
#![tactic(auto)]

#[cfg(test)]
mod checks;
#[cfg(test)]
mod downtime;
#[cfg(test)]
mod inventory;
#[cfg(test)]
mod notes;
#[cfg(test)]
mod notify;
#[cfg(test)]
mod support;
