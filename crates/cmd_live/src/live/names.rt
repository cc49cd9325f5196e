//! The names in a directory. The directory is only read.
use std::io::{self, ErrorKind, Read};
use std::rt::Files;

/// The most bytes of one read of a directory: a choice. A read returns whole names, and several of the longest fit.
const PIECE: usize = 4_096;

/// Calls `is_wanted` with each name in the directory at `path`, up to the first for which it returns true. Returns
/// whether there is one. Fails where the directory is not read.
///
/// Believed: each name is passed on once (premise 13; state-faults, rotation).
pub fn any_name<R: Files, F: FnMut(&[u8]) -> bool>(
    rt: &R,
    path: &str,
    mut is_wanted: F,
) -> io::Result<bool>
    requires { F.IsAlwaysCallable is_wanted }
{
    let mut folder = rt.open_dir(path)?;
    let mut piece = [0u8; PIECE];
    for _ in 0..u64::MAX {
        let count = match folder.read(&mut piece) {
            Ok(0) => break,
            Ok(count) => count,
            Err(error) if error.kind() == ErrorKind::Interrupted => continue,
            Err(error) => return Err(error),
        };
        for name in piece[..count].split(|byte| *byte == 0) {
            if is_wanted(name) {
                return Ok(true);
            }
        }
    }
    Ok(false)
}
