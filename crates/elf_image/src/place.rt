//! The functions of the library that a program may call, and where it calls them.

ghost use Rattle.std.specs.Prelude.{◌≡◌, AllPairs};
ghost use Rattle.elf_image.specs.Layout.{IsBelow, function_at};

/// A function of the C library or of POSIX threads that a program may call.
#[derive(Clone, Copy, Debug, PartialEq, Eq)]
pub enum Function {
    /// `pthread_create`
    PthreadCreate,
    /// `pthread_join`
    PthreadJoin,
    /// `pthread_self`
    PthreadSelf,
    /// `pthread_mutex_init`
    MutexInit,
    /// `pthread_mutex_lock`
    MutexLock,
    /// `pthread_mutex_trylock`
    MutexTrylock,
    /// `pthread_mutex_unlock`
    MutexUnlock,
    /// `pthread_mutex_destroy`
    MutexDestroy,
    /// `bsearch`
    Bsearch,
    /// `read`
    Read,
    /// `write`
    Write,
    /// `exit`
    Exit,
    /// `pthread_cond_init`
    CondInit,
    /// `pthread_cond_destroy`
    CondDestroy,
    /// `pthread_cond_wait`
    CondWait,
    /// `pthread_cond_signal`
    CondSignal,
    /// `pthread_cond_broadcast`
    CondBroadcast,
    /// `pthread_barrier_init`
    BarrierInit,
    /// `pthread_barrier_wait`
    BarrierWait,
    /// `pthread_barrier_destroy`
    BarrierDestroy,
    /// `pthread_once`
    Once,
}

/// An address at which a function of the library stands in for the program's own bytes.
#[derive(Clone, Copy, Debug, PartialEq, Eq)]
pub struct LibPlace {
    /// The address.
    pub at: u64,
    /// The function that is called there.
    pub function: Function,
}

// The function at the address, among places that rise by address.
pub(crate) fn function_at(places: &[LibPlace], a: u64) -> Option<Function>
    requires { AllPairs IsBelow places.now }
    ensures { result ≡ function_at a places.now }
{
    match places.binary_search_by_key(&a, |p| p.at) {
        Ok(i) => Some(places[i].function),
        Err(_) => None,
    }
}
