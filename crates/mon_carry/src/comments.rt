//! The comments under a new inventory: each comment on an object in both inventories gets the new index of its object.
//! The comments of objects that are gone are dropped.
ghost use Rattle.std.specs.Prelude.{◌≡◌, IfOk};
ghost use Rattle.std.specs.List.{filter_map};
ghost use Rattle.mon_carry.specs.Carried.{comment_on, comment_carried};

use crate::places::moved;
use cmd_types::Memory;
use mon_inventory::Inventory;
use mon_notes::Comment;
use std::alloc::Global;

/// The comment at the new index `place` of its object; where `place` is `None`, the object is gone, and the comment is
/// dropped.
fn comment_on(comment: Comment, place: Option<u16>) -> Option<Comment>
    ensures { result ≡ comment_on comment place }
{
    match place {
        None => None,
        Some(object) => Some(Comment { object, ..comment }),
    }
}

/// Makes the list of the comments on objects in both inventories, in order and with their ids, each at the new index
/// of its object. Drops all other comments; if memory runs out, drops all.
pub fn carry_comments(
    alloc: Global,
    old: &Inventory,
    comments: Vec<Comment>,
    new: &Inventory,
) -> Result<Vec<Comment>, Memory>
    ensures { IfOk result (λ cs. cs.items ≡ filter_map (comment_carried old.now.objects new.now.objects) comments.items) }
{
    let mut carried = Vec::with_capacity(alloc, comments.len())?;
    for comment in comments {
        let place = moved(old, new, comment.object);
        if let Some(comment) = comment_on(comment, place) {
            carried.push(comment)?;
        }
    }
    Ok(carried)
}
