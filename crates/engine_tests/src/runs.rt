//! Tests of the results of a run, through the public calls of `cmd_run`.
mod examples;
