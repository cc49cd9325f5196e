//! The laws of this crate's definitions: bytes, numbers, lines, names and commands. A proof that needs them calls one
//! function, which does nothing when it runs.
ghost use Rattle.cmd_types.specs.Laws.{Laws};

/// States the laws of the definitions of bytes, numbers, lines, names and commands (profile). A function whose proof
/// needs these laws calls this function, which does nothing when the program runs.
///
/// The laws say which bytes a part of a list lacks, and that all carriage returns at an end are dropped. A number is
/// read from a text that spells it and from no other, and the lines of a text are its only parts between line feeds.
/// Each name is found by the bytes that spell it and by no others, and a command is its name and its values.
pub fn definitions_agree()
    ensures { Laws }
{}
