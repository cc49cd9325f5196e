//! The items of a comma list; an empty list has none. Nothing is changed and no memory is taken.
ghost use Rattle.std.specs.Prelude.{◌≡◌, ◌==◌, None, Some, length, if◌then◌else◌};
ghost use Rattle.std.specs.Option.{option_copied};
ghost use Rattle.mon_inventory.specs.Texts.{has_empty_item};

/// The whole text of a comma list, for a loop that cuts its items off one by one; `None` where the list is empty, since
/// it then has no item.
pub fn first_item(text: &[u8]) -> Option<&[u8]>
    ensures { option_copied result ≡ (if length text.now == 0 then None else Some text.now) }
{
    if text.is_empty() { None } else { Some(text) }
}

/// Whether an item of a comma list is empty; false for an empty list.
pub fn has_empty_item(text: &[u8]) -> bool
    ensures { result ≡ has_empty_item text.now }
{
    if text.is_empty() {
        return false;
    }
    let mut is_item_empty = true;
    for byte in text {
        if *byte != b',' {
            is_item_empty = false;
        } else if is_item_empty {
            return true;
        } else {
            is_item_empty = true;
        }
    }
    is_item_empty
}
