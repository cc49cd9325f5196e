//! Tests of the monitor as a whole, of the program's options and words, of the results of a run and of the program's
//! texts, through the public calls of `mon_engine`, `cmd_options`, `cmd_words`, `cmd_run`, `cmd_answer` and
//! `cmd_explain`.
#![tactic(auto)]

#[cfg(test)]
mod answers;
#[cfg(test)]
mod engine;
#[cfg(test)]
mod explain;
#[cfg(test)]
mod options;
#[cfg(test)]
mod runs;
#[cfg(test)]
mod words;
