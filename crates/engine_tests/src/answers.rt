//! Tests of the program's texts and stops, through the public calls of `cmd_answer`.
mod examples;
mod inputs;
