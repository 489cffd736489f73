//! The names of the library's functions, where they stand among strings.

ghost use Rattle.std.specs.Prelude.{◌≡◌, ℕ, ◌++◌, [], ◌∷◌, nat_lt, drop};
ghost use Rattle.elf_image.specs.Library.{name_of, function_named};
ghost use Rattle.dyn_link.specs.Relocations.{is_ended};

use elf_image::Function;

const FUNCTIONS: [Function; 21] = [
    Function::PthreadCreate,
    Function::PthreadJoin,
    Function::PthreadSelf,
    Function::MutexInit,
    Function::MutexLock,
    Function::MutexTrylock,
    Function::MutexUnlock,
    Function::MutexDestroy,
    Function::Bsearch,
    Function::Read,
    Function::Write,
    Function::Exit,
    Function::CondInit,
    Function::CondDestroy,
    Function::CondWait,
    Function::CondSignal,
    Function::CondBroadcast,
    Function::BarrierInit,
    Function::BarrierWait,
    Function::BarrierDestroy,
    Function::Once,
];

// The function's name in C, as it stands in a table of strings.
fn symbol_name(f: Function) -> &'static [u8]
    ensures { result.now ≡ name_of f ++ 0 ∷ [] }
{
    match f {
        Function::PthreadCreate => b"pthread_create\0",
        Function::PthreadJoin => b"pthread_join\0",
        Function::PthreadSelf => b"pthread_self\0",
        Function::MutexInit => b"pthread_mutex_init\0",
        Function::MutexLock => b"pthread_mutex_lock\0",
        Function::MutexTrylock => b"pthread_mutex_trylock\0",
        Function::MutexUnlock => b"pthread_mutex_unlock\0",
        Function::MutexDestroy => b"pthread_mutex_destroy\0",
        Function::Bsearch => b"bsearch\0",
        Function::Read => b"read\0",
        Function::Write => b"write\0",
        Function::Exit => b"exit\0",
        Function::CondInit => b"pthread_cond_init\0",
        Function::CondDestroy => b"pthread_cond_destroy\0",
        Function::CondWait => b"pthread_cond_wait\0",
        Function::CondSignal => b"pthread_cond_signal\0",
        Function::CondBroadcast => b"pthread_cond_broadcast\0",
        Function::BarrierInit => b"pthread_barrier_init\0",
        Function::BarrierWait => b"pthread_barrier_wait\0",
        Function::BarrierDestroy => b"pthread_barrier_destroy\0",
        Function::Once => b"pthread_once\0",
    }
}

// The bytes from the offset on, of which there are none behind the end.
fn from_offset(bytes: &[u8], offset: usize) -> &[u8]
    ensures { result.now ≡ drop offset bytes.now }
{
    if offset > bytes.len() {
        return &bytes[..0];
    }
    &bytes[offset..]
}

// The function whose name stands at the offset in the strings. A name is compared where it stands,
// and no more of it than the longest name of a function.
#[tactic(auto, unfolding(elf_image::specs::Library::function_named))]
pub(crate) fn function_named(strings: &[u8], offset: u32) -> Option<Function>
    ensures { result ≡ function_named strings.now offset }
{
    let text = from_offset(strings, offset as usize);
    FUNCTIONS
        .iter()
        .copied()
        .find(|f| text.starts_with(symbol_name(*f)))
}

// Where the last name in the strings has ended: just behind the last zero byte, and 0 without one. So
// whether a name has an end is told without going through it.
pub(crate) fn end_of_names(strings: &[u8]) -> usize
    ensures { (k : ℕ) → is_ended strings.now k ≡ nat_lt k result }
{
    let mut end = 0;
    for i in 0..strings.len() {
        if strings[i] == 0 {
            end = i + 1;
        }
    }
    end
}
