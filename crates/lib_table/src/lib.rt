//! The library of a guest as a table: what each call of POSIX threads, `bsearch`, `read`, `write` and `exit` does, and
//! what a return to one of its two doors does.
//!
//! [`lib_step`] carries out one request of a thread: it reads and writes the guest's memory itself, past the store
//! buffers, and changes the [`Library`]. Its contract cites `row` (`specs/Row.antt`), which tells each function by
//! cases in a definition of its own: threads in `specs/Threads.antt`, mutexes in `specs/Mutexes.antt`, condition
//! variables, barriers and once in `specs/Sync.antt`, `bsearch` in `specs/Searches.antt`, `read` and `write` in
//! `specs/Streams.antt`, over the data of `specs/Library.antt`. [`waits`] says beforehand whether a request has to wait.
//! docs/LIBRARY.md has the table in plain words.
//!
//! Threads live in 64 slots. A thread's number tells its slot and how many came before it there, so a joined thread's
//! slot goes to a later one with a number of its own.
//!
//! The crate stands on `elf_image` for the functions' names, `tso_memory` for the memory, `callbacks` for the calls back
//! into the guest, `sync_more` for who waits where, and `address_space` for slots, stacks and doors. The machine's
//! definitions stand on it.
#![tactic(auto)]

mod answer;
mod ask;
mod held;
mod library;
mod life;
mod limits;
mod mutexes;
mod searches;
mod slot;
mod step;
mod streams;
mod sync;
#[cfg(test)]
mod tests;
mod threads;
mod words;

pub use address_space::{CALL_DOOR, END_DOOR};
pub use answer::{BadKind, Called, Stepped};
pub use ask::{Ask, Asked};
pub use library::Library;
pub use life::Life;
pub use limits::{
    EAGAIN, EBUSY, EDEADLK, EINVAL, EPERM, ESRCH, FAILED, MAX_BYTES, MAX_FRAMES, MAX_HELD,
    MAX_OUTPUT,
};
pub use slot::{Birth, Slot};
pub use step::{lib_step, waits};
