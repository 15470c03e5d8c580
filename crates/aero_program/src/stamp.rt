//! Which file was opened, and how it stood then.
ghost use Rattle.std.specs.Prelude.{◌≡◌, true, Some};

use std::fs::{Metadata, OpenFile};
use std::os::unix::fs::MetadataExt;

/// What the system tells of a plain file beside its bytes. Two opens that find the same found one file, and nobody has written to
/// it in between, as far as the system's clock tells one moment from the next.
#[derive(Clone, Copy, PartialEq, Eq)]
pub struct Stamp {
    /// The file system that it is on.
    pub device: u64,
    /// The file's number there.
    pub inode: u64,
    /// How many bytes it has.
    pub size: u64,
    /// When its bytes changed last.
    pub written: Moment,
    /// When anything of it changed last, be it its bytes, its owner or its times.
    pub changed: Moment,
}

/// A moment, in seconds since 1970, and nanoseconds behind them, from 0 to 999,999,999.
#[derive(Clone, Copy, PartialEq, Eq)]
pub struct Moment {
    pub seconds: i64,
    pub nanoseconds: i64,
}

/// The stamp of a file that is open, if it is a plain one and its metadata can be had.
pub fn stamp_of<T: OpenFile>(file: &T) -> Option<Stamp> {
    let metadata = file.metadata().ok()?;
    stamp_in(&metadata)
}

/// The stamp in the metadata of a plain file.
pub fn stamp_in(metadata: &Metadata) -> Option<Stamp> {
    if !metadata.is_file() {
        return None;
    }
    Some(Stamp {
        device: metadata.dev(),
        inode: metadata.ino(),
        size: metadata.size(),
        written: Moment {
            seconds: metadata.mtime(),
            nanoseconds: metadata.mtime_nsec(),
        },
        changed: Moment {
            seconds: metadata.ctime(),
            nanoseconds: metadata.ctime_nsec(),
        },
    })
}

/// Whether this is the stamp that was found.
pub(crate) fn is_stamp(found: Option<Stamp>, stamp: Stamp) -> bool
    ensures { result ≡ true → found ≡ Some stamp }
{
    match found {
        Some(found) => found == stamp,
        None => false,
    }
}
