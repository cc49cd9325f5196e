//! The stops of a program that could not read a state directory, or did not begin for another reason.
use cmd_answer::{InputFault, StateStop, StateWord, Stop};

/// The stop of a run that does not begin, with the word for its reason.
pub fn at_start(word: StateWord) -> Stop {
    Stop::State(StateStop::AtStart(word))
}

/// The stop of a run that does not begin, with the word for its reason, which may pass by itself.
pub fn passing(word: StateWord) -> Stop {
    Stop::State(StateStop::Passing(word))
}

/// The stop where the directory or a file of it could not be read.
pub fn unread_stop(fault: InputFault) -> Stop {
    match fault {
        InputFault::Memory => Stop::Memory,
        InputFault::Failed => at_start(StateWord::Read),
        InputFault::Passing => passing(StateWord::Read),
    }
}
