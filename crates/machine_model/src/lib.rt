//! The plain machine's definitions: the yardstick over which every promise of the program speaks.
//!
//! They say what a run of an x86-64 program with 64 threads under x86-TSO is, and read no block store, budget or lock:
//! - the case of a run (`Case`), a run's ending (`RunEnd`), a journal and its entries (`Journal`, `Entry`);
//! - in `specs`, the machine at one moment (`State`), one step for each kind of entry (`Step`), the searches that a
//!   thread has under way (`Frames`), a played journal and the entries of one thread (`Play`), and gated journals
//!   (`Gated`), which run only what is grown;
//! - also in `specs`, which entries may follow a journal (`Comes`), the journal of a serial run (`Serial`), what an entry
//!   leaves of its own thread (`Own`, `OwnLaws`), where threads stand in their blocks (`InBlocks`), and from where the rules
//!   of a turn name a step (`Ready`);
//! - `laws`, `own_laws` and `serial_laws`: what the definitions of the machine, of one entry and of the serial order come
//!   to; `conversions` between the small types of lower crates.
//!
//! The crate stands on `basic_blocks` for what stands where, on `x86_model` for what a thread wants, on `tso_memory`,
//! `guest_map`, `lib_table` and `callbacks` for memory and library, and on `miss_report`. `machine_plain` computes its
//! definitions for tests.
#![tactic(auto)]

pub mod case;
pub mod conversions;
pub mod ending;
pub mod laws;
pub mod own_laws;
pub mod serial_laws;

pub use journal_pack::{Entry, Journal};
