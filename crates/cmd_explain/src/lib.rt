//! Explains the lines that the program prints: after each known line comes a line with its meaning. A line is known
//! where the program prints lines of its form, which is the line with each number written as 0 (`kinds`). A line that
//! names a file is known by the words around the path, and the line of the status on the moments of an object by its
//! first and its last word (`times`). The kind and the numbers of a line give what it says (`known`). Tables turn the
//! numbers into causes (`codes`), and causes into words (`words`).
#![tactic(auto)]

mod codes;
mod explaining;
mod kinds;
mod known;
mod laws;
mod meaning;
mod parts;
mod pieces;
mod serving;
mod showing;
mod stopping;
mod times;
mod words;

pub use explaining::{explain, known_line};
pub use known::KnownLine;
pub use laws::{every_line_is_known, explaining_loses_nothing};
pub use serving::serve_explain;
pub use showing::put_shown_line;
pub use stopping::stopped_in_words;
