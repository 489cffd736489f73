//! The library's limits and numbers.

/// How many mutexes may be held at a time.
pub const MAX_HELD: usize = 1_024;

/// How many calls of `bsearch` and `pthread_once` a thread may have under way.
pub const MAX_FRAMES: u32 = 16;

/// How many bytes one `read` or `write` moves at most.
pub const MAX_BYTES: u64 = 4_096;

/// How many bytes both outputs together may have.
pub const MAX_OUTPUT: u64 = 16_777_216;

/// The operation isn't permitted (POSIX, errno.h; the numbers are those of Linux).
pub const EPERM: u64 = 1;

/// There is no such thread.
pub const ESRCH: u64 = 3;

/// A resource is used up for now.
pub const EAGAIN: u64 = 11;

/// The mutex is held.
pub const EBUSY: u64 = 16;

/// An argument isn't valid.
pub const EINVAL: u64 = 22;

/// The thread would wait for itself.
pub const EDEADLK: u64 = 35;

/// What `read` and `write` answer where they fail: -1.
pub const FAILED: u64 = u64::MAX;
