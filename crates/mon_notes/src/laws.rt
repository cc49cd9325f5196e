//! A law over the definitions of comments. It is the contract of a function that does nothing.
ghost use Rattle.mon_notes.specs.Comments.{CommentsStayInOrder};

/// Comments in order of their ids stay in order when one is added and when some are removed (profile).
pub fn comments_stay_in_order()
    ensures { CommentsStayInOrder }
{}
