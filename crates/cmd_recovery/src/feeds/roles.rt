//! The role of each feed of a state directory in a run: the feed's path is looked up among the paths that the call
//! names. Each index of the call's paths is used for one feed at most.
ghost use Rattle.std.specs.Prelude.{◌≡◌, ◌<◌, ◌++◌, true, false, length, map, slice_index, All, IfOk, OnOk, MatchOption};
ghost use Rattle.std.specs.List.{count_by};
ghost use Rattle.std.specs.List.Sorted.{IsPermutation};
ghost use Rattle.cmd_recovery.specs.declared.feeds.assigned.Role.TheVariants as role;
ghost use Rattle.cmd_recovery.specs.Assigns.{places_to, word_at, has_word, given_places, places_of, left_out, IfGiven, Ascend, AreFit};

use crate::feeds::assigned::Role;
use cmd_ledger::is_clock;
use cmd_types::Memory;
use mon_state::KeptFeed;
use std::alloc::Global;

/// The indices from 0 to `count - 1`, in order. Fails if memory runs out.
pub fn places(alloc: Global, count: usize) -> Result<Vec<usize>, Memory>
    ensures { IfOk result (λ places. places.items ≡ places_to count) }
{
    let mut places = Vec::new(alloc);
    for place in 0..count {
        places.push(place)?;
    }
    Ok(places)
}

/// The position in `free` of the first index at which `words` has the path `wanted`; `None` where there is none.
fn first_with(words: &[&str], free: &[usize], wanted: &[u8]) -> Option<usize>
    requires { All (λ place. place < length words.now) free.now }
    ensures { MatchOption result (count_by (has_word (map (λ w. w.now) words.now) wanted.now) free.now ≡ 0)
        (λ at. (at < length free.now) × (word_at (map (λ w. w.now) words.now) (slice_index free.now at) ≡ wanted.now)) }
{
    for at in 0..free.len() {
        if words[free[at]].as_bytes() == wanted {
            return Some(at);
        }
    }
    None
}

/// Finds the role of a feed of the directory: the clock feed, the first index in `free` with the feed's path, which is
/// removed from `free`, or `Unnamed` where no index has that path; then `free` is unchanged.
fn take_role(words: &[&str], feed: &KeptFeed, is_clock: bool, free: &mut Vec<usize>) -> Role
    requires { All (λ place. place < length words.now) free.old.items }
    ensures clock { is_clock ≡ true → result ≡ role.Clock }
    ensures given { is_clock ≡ false → IfGiven result (λ place. word_at (map (λ w. w.now) words.now) place ≡ feed.now.words) }
    ensures unnamed { result ≡ role.Unnamed → count_by (has_word (map (λ w. w.now) words.now) feed.now.words) free.old.items ≡ 0 }
    ensures unchanged { result ≡ role.Unnamed → free.new.items ≡ free.old.items }
    ensures shared { IsPermutation free.old.items (places_of result ++ free.new.items) }
    ensures ascend { Ascend free.old.items → Ascend free.new.items }
    ensures within { All (λ place. place < length words.now) free.new.items }
{
    if is_clock {
        return Role::Clock;
    }
    match first_with(words, free, feed.words.as_bytes()) {
        Some(at) => Role::Given(free.remove(at)),
        None => Role::Unnamed,
    }
}

/// Finds the role of each feed of the directory, in order, and removes the indices of these roles from `free`. Fails if
/// memory runs out; then some may be removed.
pub fn take_roles(
    alloc: Global,
    words: &[&str],
    feeds: &[KeptFeed],
    clock: Option<u16>,
    free: &mut Vec<usize>,
) -> Result<Vec<Role>, Memory>
    requires { All (λ place. place < length words.now) free.old.items }
    ensures fit { IfOk result (λ roles. AreFit (map (λ w. w.now) words.now) clock 0 feeds.now roles.items) }
    ensures shared { IfOk result (λ roles. IsPermutation free.old.items (given_places roles.items ++ free.new.items)) }
    ensures unnamed { IfOk result (λ roles. All (λ w. count_by (has_word (map (λ w. w.now) words.now) w) free.new.items ≡ 0) (left_out feeds.now roles.items)) }
    ensures ascend { OnOk result (Ascend free.old.items → Ascend free.new.items) }
    ensures within { OnOk result (All (λ place. place < length words.now) free.new.items) }
{
    let mut roles = Vec::new(alloc);
    for number in 0..feeds.len() {
        let role = take_role(words, &feeds[number], is_clock(clock, number), free);
        roles.push(role)?;
    }
    Ok(roles)
}
