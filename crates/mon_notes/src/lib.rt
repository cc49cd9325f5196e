//! Comments on hosts and services (External Commands), in order of their ids. The calls add, find and remove comments;
//! an id is never assigned twice. `specs/Comments.antt` says the effect of each call.
#![tactic(auto)]

mod boxed;
mod comment;
mod ids;
mod laws;
mod lists;
mod notes;
mod restoring;
mod row;
mod search;

pub use boxed::BoxedText;
pub use comment::Comment;
pub use laws::comments_stay_in_order;
pub use notes::Notes;
pub use restoring::misplaced;
