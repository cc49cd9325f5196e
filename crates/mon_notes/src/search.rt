//! Finds the comment with an id by binary search, since ids ascend. Nothing is changed and no memory is taken.
ghost use Rattle.std.specs.Prelude.{◌≡◌, ◌==◌, None, IfSome, IfNone, is_some};
ghost use Rattle.std.specs.Option.{option_copied};
ghost use Rattle.mon_notes.specs.Comments.{comment_of, AreAscending, IsPlaceOf};

use crate::comment::Comment;

/// The index of the comment with this id; `None` where no comment has the id.
pub fn place_of(comments: &[Comment], id: u64) -> Option<usize>
    requires { AreAscending 0 comments.now }
    ensures found { IfSome result (λ i. IsPlaceOf comments.now id i) }
    ensures missing { IfNone result (comment_of comments.now id ≡ None) }
{
    comments.binary_search_by_key(&id, |c| c.id).ok()
}

/// Whether a comment has this id. Requires that the ids ascend.
pub fn is_there(comments: &[Comment], id: u64) -> bool
    ensures { AreAscending 0 comments.now → result ≡ is_some (comment_of comments.now id) }
{
    comments.binary_search_by_key(&id, |c| c.id).is_ok()
}

/// The comment with this id; `None` where no comment has the id.
pub fn find_comment(comments: &[Comment], id: u64) -> Option<&Comment>
    requires { AreAscending 0 comments.now }
    ensures { option_copied result ≡ comment_of comments.now id }
{
    match place_of(comments, id) {
        None => None,
        Some(i) => Some(&comments[i]),
    }
}
