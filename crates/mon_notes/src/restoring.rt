//! Tests the order of the ids of comments that were saved.
ghost use Rattle.std.specs.Prelude.{◌≡◌, ℕ, ◌<◌, length, IfSome, MatchOption};
ghost use Rattle.mon_notes.specs.Comments.{IsCommentList, ComesAfter};

use crate::comment::Comment;

/// The index of the first comment whose id is not above the id before it, or is above `last_id`, the greatest id ever
/// assigned; `None` where there is no such comment. The first id has to be above 0. Takes no memory.
///
/// ```
/// assert_eq!(rt; misplaced(&[], 0), None);
/// ```
pub fn misplaced(comments: &[Comment], last_id: u64) -> Option<usize>
    ensures all { MatchOption result
        (IsCommentList (record { comments = comments.now; last_id = last_id }))
        (λ _. IsCommentList (record { comments = comments.now; last_id = last_id }) → ⊥) }
    ensures within { IfSome result (λ place. place < length comments.now) }
    ensures at { IfSome result (λ place. ComesAfter last_id comments.now place → ⊥) }
    // At `None` this is said of each index.
    ensures earlier { (k : ℕ) → IfSome result (λ place. k < place) → ComesAfter last_id comments.now k }
{
    let mut low = 0;
    for place in 0..comments.len() {
        let id = comments[place].id;
        if id <= low || id > last_id {
            return Some(place);
        }
        low = id;
    }
    None
}
