//! Bundles and files for which nothing is printed, and why.
use crate::options::OPTIONS;
use cmd_answer::{FilesStop, Stop, bundle_in, open_files};
use cmd_options::FilesCall;
use std::test::Fail;

/// Bundles, and the stop of each.
const BUNDLES: &[(&[u8], Stop)] = &[
    (b"host;web;1;0;;\n", Stop::Feeds),
    // A faulty inventory without a feed.
    (b"host;web;1\n", Stop::Feeds),
    (b"host;web;1\n---\n", Stop::Inventory { line: 1, cause: 1 }),
];

#[test]
fn bundles_without_an_answer(rt: HostRuntime) {
    for (input, stop) in BUNDLES {
        let found = bundle_in(rt.alloc(), input);
        assert!(rt; found.is_err_and(|it| it == *stop));
    }
}

/// The path of an inventory, the paths of feeds, and the stop.
const FILES: &[(&str, &[&str], FilesStop<'static>)] = &[
    // No file is opened where there is no feed.
    ("/nowhere/inventory", &[], FilesStop::Other(Stop::Feeds)),
    (
        "/nowhere/inventory",
        &["/nowhere/feed"],
        FilesStop::Open("/nowhere/inventory"),
    ),
    // A directory can be opened, but not read.
    ("/", &["/dev/null"], FilesStop::Open("/")),
    (
        "/dev/null",
        &["/dev/null", "/nowhere/feed"],
        FilesStop::Open("/nowhere/feed"),
    ),
];

#[test]
fn files_without_an_answer(rt: HostRuntime) -> Result<(), Fail> {
    for (inventory, feeds, stop) in FILES {
        let call = FilesCall {
            inventory: *inventory,
            feeds: Vec::from_slice(rt.alloc(), feeds)?,
            options: OPTIONS,
        };
        let found = open_files(&rt, rt.alloc(), &call);
        assert!(rt; found.is_err_and(|it| it == *stop));
    }
    Ok(())
}
