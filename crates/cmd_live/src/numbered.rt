//! The numbers of the feeds that a call names, among all feeds of the run: the clock feed has a number too.
ghost use Rattle.std.specs.Prelude.{◌≡◌, IfOk, map};

use cmd_types::Memory;
use std::alloc::Global;

/// The path that stands for a feed of the state directory that the call does not name. No word of a call equals it.
pub const UNNAMED: &str = "\0";

/// A feed that the call names, with its number among all feeds of the run, from 0.
#[derive(Clone, Copy)]
pub struct Numbered<'a> {
    pub path: &'a str,
    pub number: u64,
}

/// The feeds at `paths`, numbered from 0 in this order. Fails if memory runs out.
pub fn number_feeds<'a>(alloc: Global, paths: &[&'a str]) -> Result<Vec<Numbered<'a>>, Memory>
    ensures { IfOk result (λ feeds. map (λ f. f.path.now) feeds.items ≡ map (λ p. p.now) paths.now) }
{
    let mut feeds = Vec::with_capacity(alloc, paths.len())?;
    for path in paths {
        let number = feeds.len() as u64;
        feeds.push_reserved(Numbered {
            path: *path,
            number,
        });
    }
    Ok(feeds)
}
