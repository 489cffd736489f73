//! What the calls answer (POSIX, errno.h and pthread.h; the numbers are those of Linux).

/// The operation isn't permitted.
pub const EPERM: u64 = 1;

/// The object is in use.
pub const EBUSY: u64 = 16;

/// An argument isn't valid.
pub const EINVAL: u64 = 22;

/// What `pthread_barrier_wait` answers to the thread that opens the barrier: PTHREAD_BARRIER_SERIAL_THREAD, -1.
pub const SERIAL_THREAD: u64 = u64::MAX;
