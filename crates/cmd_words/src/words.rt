//! Reads the words of a call of the program as a mode with its options (profile). All other words, a call for help
//! included, are a wrong use (`WordsFault::Usage`).
ghost use Rattle.std.specs.Prelude.{◌≡◌, IfOk, None, map, option_map};
ghost use Rattle.cmd_journal.specs.declared.journal.TheConstants.{GREATEST_LIMIT};
ghost use Rattle.cmd_words.specs.Words.{AreOfWords, HasRanges, explain_words};

use crate::asked::{checked_in, files_in, follow_in, mode_in, state_to_replay_in, told_in};
use crate::command::matches_of;
use crate::fault::WordsFault;
use crate::names::{BUNDLE, EXPLAIN, REPLAY};
use cmd_options::{FilesCall, FollowCall, Mode, ToldCall};
use cmd_types::Memory;
use std::alloc::Global;

/// A list of the words, with the default mode `bundle` before them where there is no first word or the first word
/// begins with two dashes. The error is out of memory.
fn with_bundle<'a>(alloc: Global, words: &'a [&'a str]) -> Result<Vec<&'a str>, Memory> {
    let mut all = Vec::new(alloc);
    match words {
        [first, ..] if !first.starts_with("--") => {}
        _ => all.push(BUNDLE)?,
    }
    all.extend_from_slice(words)?;
    Ok(all)
}

/// The words after `explain`, which are the text to be explained; `None` where `explain` is not the first word. A word
/// that begins with a dash belongs to the text too (profile).
///
/// ```
/// let line = text_to_explain(&["explain", "gateway:", "usage"]).ok_or("the first word is that")?;
/// assert_eq!(rt; line, ["gateway:", "usage"].as_slice());
/// assert!(rt; text_to_explain(&["files", "inventory", "checks"]).is_none());
/// ```
pub fn text_to_explain<'a>(words: &'a [&'a str]) -> Option<&'a [&'a str]>
    ensures { option_map (λ line. map (λ w. w.now) line.now) result ≡ explain_words (map (λ w. w.now) words.now) }
{
    match words {
        [first, line @ ..] if *first == EXPLAIN => Some(line),
        _ => None,
    }
}

/// The path of the state directory that is to be replayed, where the words are `replay --state` and a path (profile);
/// `None` where the first word is not `replay`, or there is no `--state`.
///
/// # Errors
/// [`WordsFault::Usage`] where the words name no such call, a call for help included; [`WordsFault::Memory`] if memory
/// runs out.
///
/// ```
/// let Ok(path) = state_to_replay_of(alloc, &["replay", "--state", "site"]) else {
///     return Err(Fail::new("the words are right"));
/// };
/// assert_eq!(rt; path, Some("site"));
/// let Ok(path) = state_to_replay_of(alloc, &["replay", "--limit", "7"]) else {
///     return Err(Fail::new("the words are right"));
/// };
/// assert_eq!(rt; path, None);
/// ```
pub fn state_to_replay_of<'a>(
    alloc: Global,
    words: &'a [&'a str],
) -> Result<Option<&'a str>, WordsFault> {
    match words {
        [first, ..] if *first == REPLAY => Ok(state_to_replay_in(&matches_of(alloc, words)?)),
        _ => Ok(None),
    }
}

/// The mode that the words name, `bundle` or `replay` without `--state`, with its options in their ranges (profile).
/// [`files_of`], [`follow_of`], [`state_to_replay_of`], [`told_of`], [`checked_of`] and [`text_to_explain`] read the
/// words of the other modes.
///
/// # Errors
/// [`WordsFault::Usage`] where the words name no such mode with its options, a call for help included;
/// [`WordsFault::Memory`] if memory runs out.
///
/// ```
/// let Ok(mode) = mode_of(alloc, &["replay", "--limit", "7"]) else {
///     return Err(Fail::new("the words are right"));
/// };
/// assert!(rt; mode == Mode::Replay { limit: 7 });
/// ```
pub fn mode_of(alloc: Global, words: &[&str]) -> Result<Mode, WordsFault>
    ensures ranges { IfOk result HasRanges }
{
    let words = with_bundle(alloc, words)?;
    mode_in(&matches_of(alloc, &words)?)
}

/// The call of the mode `files` that the words name: its paths, and its options in their ranges (profile). The first
/// word is `files`, else the error is `Usage`.
///
/// # Errors
/// [`WordsFault::Usage`] where the words name no such call, a call for help included; [`WordsFault::Memory`] if memory
/// runs out.
///
/// ```
/// let Ok(call) = files_of(alloc, &["files", "inventory", "checks"]) else {
///     return Err(Fail::new("the words are right"));
/// };
/// assert_eq!(rt; call.inventory, "inventory");
/// assert_eq!(rt; call.feeds.as_slice(), ["checks"].as_slice());
/// ```
pub fn files_of<'a>(alloc: Global, words: &'a [&'a str]) -> Result<FilesCall<'a>, WordsFault>
    ensures given { IfOk result (λ call. AreOfWords call.options.run) }
{
    files_in(alloc, &matches_of(alloc, words)?)
}

/// The call of the mode `follow` that the words name: its paths, and its options in their ranges; without `--state` the
/// limit is the greatest (profile). The first word is `follow`, else the error is `Usage`.
///
/// # Errors
/// [`WordsFault::Usage`] where the words name no such call, a call for help included; [`WordsFault::Memory`] if memory
/// runs out.
///
/// ```
/// let words = ["follow", "--drain", "--ahead", "5", "inventory", "checks"];
/// let Ok(call) = follow_of(alloc, &words) else {
///     return Err(Fail::new("the words are right"));
/// };
/// assert_eq!(rt; call.inventory, "inventory");
/// assert!(rt; call.following.drain);
/// assert_eq!(rt; (call.following.clock, call.following.ahead), (0, 5));
/// ```
pub fn follow_of<'a>(alloc: Global, words: &'a [&'a str]) -> Result<FollowCall<'a>, WordsFault>
    ensures given { IfOk result (λ call. AreOfWords call.run) }
    ensures limit { IfOk result (λ call. call.keeping.state ≡ None → call.run.limit ≡ GREATEST_LIMIT) }
{
    follow_in(alloc, &matches_of(alloc, words)?)
}

/// The path of the inventory that is to be checked, where the words are `check` and that path (profile). The first word
/// is `check`, else the error is `Usage`.
///
/// # Errors
/// [`WordsFault::Usage`] where the words name no such call, a call for help included; [`WordsFault::Memory`] if memory
/// runs out.
///
/// ```
/// let Ok(path) = checked_of(alloc, &["check", "inventory"]) else {
///     return Err(Fail::new("the words are right"));
/// };
/// assert_eq!(rt; path, "inventory");
/// ```
pub fn checked_of<'a>(alloc: Global, words: &'a [&'a str]) -> Result<&'a str, WordsFault> {
    checked_in(&matches_of(alloc, words)?)
}

/// The call of the mode `told` that the words name (profile). The first word is `told`, else the error is `Usage`.
///
/// # Errors
/// [`WordsFault::Usage`] where the words name no such call, a call for help included; [`WordsFault::Memory`] if memory
/// runs out.
///
/// ```
/// let Ok(call) = told_of(alloc, &["told", "--after", "0.12", "site"]) else {
///     return Err(Fail::new("the words are right"));
/// };
/// assert_eq!(rt; call.state, "site");
/// let wanted = ToldPlace {
///     segment: 0,
///     line: 12,
/// };
/// assert_eq!(rt; call.after, Some(wanted));
/// ```
pub fn told_of<'a>(alloc: Global, words: &'a [&'a str]) -> Result<ToldCall<'a>, WordsFault> {
    told_in(&matches_of(alloc, words)?)
}
