//! What a thread asks for, and what comes of it.

/// The nine calls.
#[derive(Clone, Copy, Debug, PartialEq, Eq)]
pub enum SyncName {
    /// `pthread_cond_init(cond, attributes)`
    CondInit,
    /// `pthread_cond_destroy(cond)`
    CondDestroy,
    /// `pthread_cond_wait(cond, mutex)`
    CondWait,
    /// `pthread_cond_signal(cond)`
    CondSignal,
    /// `pthread_cond_broadcast(cond)`
    CondBroadcast,
    /// `pthread_barrier_init(barrier, attributes, count)`
    BarrierInit,
    /// `pthread_barrier_wait(barrier)`
    BarrierWait,
    /// `pthread_barrier_destroy(barrier)`
    BarrierDestroy,
    /// `pthread_once(control, routine)`
    Once,
}

/// What comes of a call.
#[derive(Clone, Copy, Debug, PartialEq, Eq)]
pub enum Outcome {
    /// The call returns this value.
    Answer(u64),
    /// The thread waits from now on, and stays at the call. Of `pthread_cond_wait` it lets go of its mutex.
    Sleep,
    /// `pthread_cond_wait` returns 0, and the thread holds this mutex.
    Wake { mutex: u64 },
    /// `pthread_once` begins its routine.
    Begin,
    /// `pthread_once` can't begin its routine, since too many calls of the thread are under way. Nothing changed.
    Deep,
    /// The call can't be carried out before another thread goes on. Nothing changed.
    Waits,
}
