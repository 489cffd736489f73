//! The growing graph of blocks: each place is grown at most once, and what is grown there never changes.
//!
//! A `Book` is a finite map from places, the addresses at which blocks begin, to blocks that several threads may own.
//! It only grows. Its contracts see `Graph`: that map, and for how many more blocks there is room. The shared state of
//! a run stands on it, and lends its blocks to the threads.
#![tactic(auto)]

mod book;

pub use book::{Book, GrowFault, MAX_BLOCKS};

#[cfg(test)]
mod tests {
    use super::*;
    use std::sync::Arc;

    fn block(rt: &(impl AllocGlobal + std::process::Abort), value: u64) -> Arc<u64> {
        let Ok(block) = Arc::new(rt.alloc(), value) else {
            panic!(rt; "no memory")
        };
        block
    }

    #[test]
    fn grows_each_place_once(rt: HostRuntime) {
        let Ok(mut book) = Book::make(rt.alloc()) else {
            panic!(rt; "no memory")
        };
        assert!(rt; book.find(0x401100).is_none());
        let Ok(()) = book.reserve_one() else {
            panic!(rt; "no memory")
        };
        let Ok(()) = book.grow(0x401100, block(&rt, 1)) else {
            panic!(rt; "not grown")
        };
        let Ok(()) = book.reserve_one() else {
            panic!(rt; "no memory")
        };
        match book.grow(0x401100, block(&rt, 2)) {
            Err(GrowFault::Grown(back)) => assert_eq!(rt; *back, 2),
            _ => panic!(rt; "grown twice"),
        }
        match book.find(0x401100) {
            Some(first) => assert_eq!(rt; **first, 1),
            None => panic!(rt; "not found"),
        }
        assert_eq!(rt; book.count(), 1);
    }

    #[test]
    fn fills(rt: HostRuntime) {
        let Ok(mut book) = Book::make(rt.alloc()) else {
            panic!(rt; "no memory")
        };
        for i in 0..65_536u64 {
            let Ok(()) = book.reserve_one() else {
                panic!(rt; "no memory")
            };
            let Ok(()) = book.grow(i.wrapping_mul(40_503) % 65_536, block(&rt, i)) else {
                panic!(rt; "not grown")
            };
        }
        assert_eq!(rt; book.count(), 65_536);
        let Ok(()) = book.reserve_one() else {
            panic!(rt; "no memory")
        };
        match book.grow(65_536, block(&rt, 0)) {
            Err(GrowFault::Full) => (),
            _ => panic!(rt; "grown past the limit"),
        }
        match book.grow(65_535, block(&rt, 0)) {
            Err(GrowFault::Grown(_)) => (),
            _ => panic!(rt; "grown twice"),
        }
    }
}
