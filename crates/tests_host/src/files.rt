//! Files that are fetched.

use do_base::{FetchFail, Shelf, Text};
use do_host::FileShelf;
use std::alloc::AllocError;
use std::fs;
use std::test::Fail;

/// What comes of fetching a file within a limit.
fn fetched(
    rt: HostRuntime,
    name: &[u8],
    limit: u32,
) -> Result<Result<Text, FetchFail>, AllocError> {
    let name = Text::from_slice(rt.alloc(), name)?;
    let mut shelf = FileShelf::new(rt.alloc(), rt);
    Ok(shelf.fetch(&name, u64::from(limit)))
}

/// Whether these bytes are fetched.
fn fetches(rt: HostRuntime, name: &[u8], limit: u32, bytes: &[u8]) -> Result<bool, AllocError> {
    match fetched(rt, name, limit)? {
        Ok(text) => Ok(text.is(bytes)),
        Err(_) => Ok(false),
    }
}

/// Whether a file is not fetched, for this reason.
fn refuses(
    rt: HostRuntime,
    name: &[u8],
    limit: u32,
    reason: FetchFail,
) -> Result<bool, AllocError> {
    match fetched(rt, name, limit)? {
        Ok(_) => Ok(false),
        Err(fail) => Ok(fail == reason),
    }
}

/// Whether a file of five bytes is fetched within five bytes and not within four, and a file that
/// is not there is not.
pub(crate) fn fetches_within_the_limit(rt: HostRuntime) -> Result<bool, Fail> {
    fs::write(&rt, "five", "12345")?;
    let whole = fetches(rt, b"five", 5, b"12345")?;
    let long = FetchFail::Long { read: 5, limit: 4 };
    let long = refuses(rt, b"five", 4, long)?;
    let missing = refuses(rt, b"six", 5, FetchFail::Failed)?;
    Ok(whole && long && missing)
}

/// Whether a file of 65,537 bytes, whose first and last two are others, is fetched whole, and not
/// within a byte less.
pub(crate) fn fetches_a_large_file(rt: HostRuntime) -> Result<bool, Fail> {
    let mut bytes = vec![in rt.alloc(); b'a'; 65_537]?;
    bytes[0] = 1;
    bytes[65_535] = 2;
    bytes[65_536] = 3;
    fs::write(&rt, "large", bytes.as_slice())?;
    let whole = fetches(rt, b"large", 65_537, bytes.as_slice())?;
    let long = FetchFail::Long {
        read: 65_537,
        limit: 65_536,
    };
    Ok(whole && refuses(rt, b"large", 65_536, long)?)
}
