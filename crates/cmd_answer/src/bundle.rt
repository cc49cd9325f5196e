//! Splits a bundle: reads its inventory, and finds the texts of its feeds, which are neither read nor copied here.
ghost use Rattle.std.specs.Prelude.{IfOk, IfErr, map};
ghost use Rattle.cmd_answer.specs.Bundles.{IsBundle};
ghost use Rattle.cmd_answer.specs.declared.stop.FilesStop.TheVariants.{Other};
ghost use Rattle.cmd_answer.specs.Stops.{StopsBundle};

use crate::dividing::parts;
use crate::stop::Stop;
use cmd_types::is_sender_count;
use mon_inventory::Inventory;
use std::alloc::Global;

/// The inventory of a bundle, and the texts of its feeds, which are slices of `input`. Checks the number of feeds
/// before it reads the inventory (profile).
///
/// # Errors
/// [`Stop::Feeds`] where there is no feed, or more than [`MOST_SENDERS`](cmd_types::MOST_SENDERS); the first fault of
/// the inventory; or out of memory.
///
/// ```
/// let input = b"host;web;1;0;;\n---\n[1] RESTART_PROGRAM\n".as_slice();
/// let Ok((inventory, feeds)) = bundle_in(alloc, input) else {
///     return Err(Fail::new("the bundle has no fault"));
/// };
/// assert_eq!(rt; inventory.object_count(), 1);
/// assert_eq!(rt; feeds.len(), 1);
/// assert_eq!(rt; feeds[0], b"[1] RESTART_PROGRAM\n".as_slice());
/// ```
pub fn bundle_in(alloc: Global, input: &[u8]) -> Result<(Inventory, Vec<&[u8]>), Stop>
    ensures read { IfOk result (λ x. IsBundle input.now x.0 (map (λ f. f.now) x.1.items)) }
    ensures stops { IfErr result (λ s. StopsBundle input.now (Other s)) }
{
    let parts = parts(alloc, input)?;
    match parts.as_slice() {
        [text, feeds @ ..] if is_sender_count(feeds.len()) => {
            let inventory = Inventory::parse(alloc, text)?;
            Ok((inventory, Vec::from_slice(alloc, feeds)?))
        }
        _ => Err(Stop::Feeds),
    }
}
