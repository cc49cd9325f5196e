//! The examples that the documentation of the public items has, a test each, with the same lines.
use cmd_options::{Mode, ToldPlace};
use cmd_words::{
    ModeName, VERSION_TEXT, WordsFault, checked_of, files_of, follow_of, mode_named, mode_of,
    state_to_replay_of, text_to_explain, told_of, usage_of,
};
use std::test::Fail;

#[test]
fn mode_that_words_name(rt: HostRuntime) {
    assert_eq!(rt;
        mode_named(&["files", "inventory", "checks"]),
        Some(ModeName::Files)
    );
    assert_eq!(rt; mode_named(&["help"]), Some(ModeName::Help));
    assert_eq!(rt; mode_named(&["help", "files"]), None);
    assert_eq!(rt; mode_named(&["--journal"]), None);
}

#[test]
fn usage_of_a_mode(rt: HostRuntime) {
    let parts = usage_of(Some(ModeName::Check));
    assert!(rt; parts[0].starts_with(b"gateway check INVENTORY\n"));
    assert!(rt; usage_of(None).len() > parts.len());
    assert!(rt; VERSION_TEXT.starts_with(b"gateway "));
}

#[test]
fn words_of_told_lines(rt: HostRuntime) -> Result<(), Fail> {
    let alloc = rt.alloc();
    let Ok(call) = told_of(alloc, &["told", "--after", "0.12", "site"]) else {
        return Err(Fail::new("the words are right"));
    };
    assert_eq!(rt; call.state, "site");
    let wanted = ToldPlace {
        segment: 0,
        line: 12,
    };
    assert_eq!(rt; call.after, Some(wanted));
    Ok(())
}

#[test]
fn words_of_a_check(rt: HostRuntime) -> Result<(), Fail> {
    let alloc = rt.alloc();
    let Ok(path) = checked_of(alloc, &["check", "inventory"]) else {
        return Err(Fail::new("the words are right"));
    };
    assert_eq!(rt; path, "inventory");
    Ok(())
}

#[test]
fn words_of_a_replay(rt: HostRuntime) -> Result<(), Fail> {
    let alloc = rt.alloc();
    let Ok(mode) = mode_of(alloc, &["replay", "--limit", "7"]) else {
        return Err(Fail::new("the words are right"));
    };
    assert!(rt; mode == Mode::Replay { limit: 7 });
    Ok(())
}

#[test]
fn words_of_a_replayed_state(rt: HostRuntime) -> Result<(), Fail> {
    let alloc = rt.alloc();
    let Ok(path) = state_to_replay_of(alloc, &["replay", "--state", "site"]) else {
        return Err(Fail::new("the words are right"));
    };
    assert_eq!(rt; path, Some("site"));
    let Ok(path) = state_to_replay_of(alloc, &["replay", "--limit", "7"]) else {
        return Err(Fail::new("the words are right"));
    };
    assert_eq!(rt; path, None);
    Ok(())
}

#[test]
fn words_of_files(rt: HostRuntime) -> Result<(), Fail> {
    let alloc = rt.alloc();
    let Ok(call) = files_of(alloc, &["files", "inventory", "checks"]) else {
        return Err(Fail::new("the words are right"));
    };
    assert_eq!(rt; call.inventory, "inventory");
    assert_eq!(rt; call.feeds.as_slice(), ["checks"].as_slice());
    Ok(())
}

#[test]
fn words_of_followed_feeds(rt: HostRuntime) -> Result<(), Fail> {
    let alloc = rt.alloc();
    let words = ["follow", "--drain", "--ahead", "5", "inventory", "checks"];
    let Ok(call) = follow_of(alloc, &words) else {
        return Err(Fail::new("the words are right"));
    };
    assert_eq!(rt; call.inventory, "inventory");
    assert!(rt; call.following.drain);
    assert_eq!(rt; (call.following.clock, call.following.ahead), (0, 5));
    Ok(())
}

#[test]
fn words_that_give_no_mode(rt: HostRuntime) -> Result<(), Fail> {
    let alloc = rt.alloc();
    let Err(fault) = mode_of(alloc, &["journal"]) else {
        return Err(Fail::new("there is no such mode"));
    };
    assert!(rt; fault == WordsFault::Usage);
    Ok(())
}

#[test]
fn words_of_a_text(rt: HostRuntime) -> Result<(), Fail> {
    let line = text_to_explain(&["explain", "gateway:", "usage"]).ok_or("the first word is that")?;
    assert_eq!(rt; line, ["gateway:", "usage"].as_slice());
    assert!(rt; text_to_explain(&["files", "inventory", "checks"]).is_none());
    Ok(())
}
