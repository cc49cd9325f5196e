//! Assigns numbers to the feeds of a run. A feed of the state directory keeps its number, whatever the order in which
//! the call names the feeds, and even if the call leaves it out; a new feed gets the next number. No file is read or
//! written.
ghost use Rattle.std.specs.Prelude.{◌≡◌, ◌<◌, ◌≤◌, ◌++◌, ◌∷◌, [], true, false, length, map, drop, All, IfSome, IfOk, IfErr, OnOk, if◌then◌else◌};
ghost use Rattle.cmd_types.specs.declared.entry.TheConstants.{MOST_SENDERS};
ghost use Rattle.cmd_types.specs.Bytes.{Lacks};
ghost use Rattle.cmd_store.specs.Stores.{BeginsWith};
ghost use Rattle.mon_state.specs.Feeds.{AreWritable};
ghost use Rattle.cmd_recovery.specs.declared.feeds.assigned.Role.TheVariants as role;
ghost use Rattle.cmd_recovery.specs.Assigns.{TakesOver, AreAssigned, AreUnnamed, AreInOrder, HasClock, IsAssignFault, clocks, new_clocks, word_at, new_feed, asks_anew, clock_after};

use crate::feeds::assigned::{AssignFault, Assigned, Role};
use crate::feeds::roles::{places, take_roles};
use cmd_types::{MOST_SENDERS, Memory, Text, lacks};
use mon_state::{KeptFeed, KeptFeeds};
use std::alloc::Global;

/// Whether `clock`, the number of the clock feed, is below `count`, the number of feeds; true where `clock` is `None`.
fn is_feed(clock: Option<u16>, count: usize) -> bool
    ensures feed { result ≡ true → IfSome clock (λ k. k < count) }
    ensures none { result ≡ false → IfSome clock (λ k. k < count) → ⊥ }
{
    match clock {
        None => true,
        Some(clock) => usize::from(clock) < count,
    }
}

/// The number of clock feeds in a run, 0 or 1: the directory's, or a new one where `has_clock` is true.
fn clock_count(clock: Option<u16>, has_clock: bool) -> usize
    ensures { result ≡ clocks clock has_clock }
{
    match clock {
        Some(_) => 1,
        None => usize::from(has_clock),
    }
}

/// The number of new clock feeds in a run, 0 or 1: 1 where the directory has none and `has_clock` is true.
fn new_clock_count(clock: Option<u16>, has_clock: bool) -> usize
    ensures { result ≡ new_clocks clock has_clock }
{
    match clock {
        Some(_) => 0,
        None => usize::from(has_clock),
    }
}

/// Whether a path in `words` has a line feed.
fn has_line_feed(words: &[&str]) -> bool
    ensures none { result ≡ false → All (λ w. Lacks 10 w.now) words.now }
    ensures one { result ≡ true → All (λ w. Lacks 10 w.now) words.now → ⊥ }
{
    for word in words {
        if !lacks(b'\n', word.as_bytes()) {
            return true;
        }
    }
    false
}

/// The kept data of a new feed with the path `words`: no command of it is journaled. Fails if memory runs out.
fn new_feed(alloc: Global, words: &str) -> Result<KeptFeed, Memory>
    ensures { IfOk result (λ f. f ≡ new_feed words.now) }
{
    Ok(KeptFeed {
        words: Text::from_slice(alloc, words.as_bytes())?,
        journaled: 0,
        earlier: 0,
        last: Text::from_slice(alloc, b"")?,
    })
}

/// A copy of the kept data of `feeds`. Fails if memory runs out.
fn copied(alloc: Global, feeds: &[KeptFeed]) -> Result<Vec<KeptFeed>, Memory>
    ensures { IfOk result (λ fs. fs.items ≡ feeds.now) }
{
    let mut list = Vec::new(alloc);
    for feed in feeds {
        list.push(KeptFeed {
            words: feed.words.copy(alloc)?,
            journaled: feed.journaled,
            earlier: feed.earlier,
            last: feed.last.copy(alloc)?,
        })?;
    }
    Ok(list)
}

/// For each index in `free`, in order, appends to `feeds` a new feed with the path at that index of `words`, and to
/// `roles` its role. If memory runs out, some of them may already be appended.
fn add_new(
    alloc: Global,
    words: &[&str],
    free: &[usize],
    feeds: &mut Vec<KeptFeed>,
    roles: &mut Vec<Role>,
) -> Result<(), Memory>
    requires { All (λ place. place < length words.now) free.now }
    ensures feeds { OnOk result (feeds.new.items ≡ feeds.old.items ++ map (λ place. new_feed (word_at (map (λ w. w.now) words.now) place)) free.now) }
    ensures roles { OnOk result (roles.new.items ≡ roles.old.items ++ map role.Given free.now) }
{
    for place in free {
        feeds.push(new_feed(alloc, words[*place])?)?;
        roles.push(Role::Given(*place))?;
    }
    Ok(())
}

/// Appends a new clock feed and its role where `has_clock` is true and `clock` is `None`. Returns the number of the
/// clock feed; `None` where there is none. If memory runs out, `feeds` may have the new feed without its role.
fn add_clock(
    alloc: Global,
    clock: Option<u16>,
    has_clock: bool,
    feeds: &mut Vec<KeptFeed>,
    roles: &mut Vec<Role>,
) -> Result<Option<u16>, Memory>
    requires { asks_anew clock has_clock ≡ true → length feeds.old.items < MOST_SENDERS }
    ensures clock { IfOk result (λ after. after ≡ clock_after clock has_clock (length feeds.old.items)) }
    ensures feeds { OnOk result (feeds.new.items ≡ feeds.old.items ++ (if asks_anew clock has_clock then new_feed [] ∷ [] else [])) }
    ensures roles { OnOk result (roles.new.items ≡ roles.old.items ++ (if asks_anew clock has_clock then role.Clock ∷ [] else [])) }
{
    if clock.is_some() || !has_clock {
        return Ok(clock);
    }
    let number = feeds.len() as u16;
    feeds.push(new_feed(alloc, "")?)?;
    roles.push(Role::Clock)?;
    Ok(Some(number))
}

/// Assigns each feed of a run its number (profile). `feeds` are the feeds of the directory, which keep their numbers;
/// `words` are the paths that the call names, in any order. The clock feed of the directory remains although the call
/// does not name it. The call may leave out feeds of the directory, whose numbers stay, unless it also names a new
/// feed: the new path might lead to a feed that is left out, whose commands would then be taken twice. Of feeds with
/// the same path, those with the lowest numbers are named first. New feeds get the next numbers, in the order of
/// `words`; last comes a new clock feed where `has_clock` is true and the directory has none.
///
/// # Errors
/// [`AssignFault`]. Where both [`AssignFault::TooMany`] and [`AssignFault::Feeds`] hold, it is
/// [`AssignFault::TooMany`].
///
/// ```
/// let mut feeds = KeptFeeds {
///     list: Vec::new(alloc),
///     clock: None,
/// };
/// feeds.list.push(KeptFeed {
///     words: Text::from_slice(alloc, b"b")?,
///     journaled: 2,
///     earlier: 0,
///     last: Text::from_slice(alloc, b"[9] RESTART_PROGRAM")?,
/// })?;
/// let Ok(assigned) = assign(alloc, &feeds, &["a", "b"], true) else {
///     return Err(Fail::new("b is given"));
/// };
/// assert_eq!(rt;
///     assigned.roles.as_slice(),
///     [Role::Given(1), Role::Given(0), Role::Clock].as_slice()
/// );
/// assert_eq!(rt; assigned.feeds.clock, Some(2));
/// let Ok(assigned) = assign(alloc, &feeds, &[], true) else {
///     return Err(Fail::new("b is left out, and no feed is new"));
/// };
/// assert_eq!(rt;
///     assigned.roles.as_slice(),
///     [Role::Unnamed, Role::Clock].as_slice()
/// );
/// let Err(fault) = assign(alloc, &feeds, &["a"], true) else {
///     return Err(Fail::new("b is left out, and a is new"));
/// };
/// assert!(rt; fault == AssignFault::Feeds);
/// ```
pub fn assign(
    alloc: Global,
    feeds: &KeptFeeds,
    words: &[&str],
    has_clock: bool,
) -> Result<Assigned, AssignFault>
    ensures takes_over { IfOk result (λ a. TakesOver feeds.now a.feeds) }
    ensures kept { IfOk result (λ a. BeginsWith a.feeds.list feeds.now.list) }
    ensures in_order { IfOk result (λ a. AreInOrder (drop (length feeds.now.list) a.roles.items)) }
    ensures roles { IfOk result (λ a. AreAssigned (map (λ w. w.now) words.now) a.feeds a.roles.items) }
    ensures unnamed { IfOk result (λ a. AreUnnamed (map (λ w. w.now) words.now) feeds.now a.roles.items) }
    ensures clock { IfOk result (λ a. HasClock feeds.now.clock has_clock a.feeds.clock) }
    ensures writable { IfOk result (λ a. AreWritable feeds.now → AreWritable a.feeds) }
    ensures few { IfOk result (λ a. length a.feeds.list ≤ MOST_SENDERS) }
    ensures fault { IfErr result (λ f. IsAssignFault (map (λ w. w.now) words.now) feeds.now has_clock f) }
{
    let clock = feeds.clock;
    let most = usize::from(MOST_SENDERS);
    if words.len() + clock_count(clock, has_clock) > most
        || feeds.list.len() + new_clock_count(clock, has_clock) > most
    {
        return Err(AssignFault::TooMany);
    }
    if !is_feed(clock, feeds.list.len()) || has_line_feed(words) {
        return Err(AssignFault::Feeds);
    }
    let mut free = places(alloc, words.len())?;
    let mut roles = take_roles(alloc, words, &feeds.list, clock, &mut free)?;
    if !free.is_empty() && roles.contains(&Role::Unnamed) {
        return Err(AssignFault::Feeds);
    }
    let mut list = copied(alloc, &feeds.list)?;
    add_new(alloc, words, &free, &mut list, &mut roles)?;
    let clock = add_clock(alloc, clock, has_clock, &mut list, &mut roles)?;
    Ok(Assigned {
        feeds: KeptFeeds { list, clock },
        roles,
    })
}
