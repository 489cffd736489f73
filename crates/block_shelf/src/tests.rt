//! One block on a shelf.

use crate::{Placed, Shelf};
use std::test::Fail;

// An address and its code.
#[derive(Drop)]
struct Code {
    at: u64,
    code: Vec<u8>,
}

impl Placed for Code {
    ghost place = { λ c. c.at };

    ghost bytes = { λ c. c.code.items };

    fn at(&self) -> u64 {
        self.at
    }

    fn code(&self) -> &[u8] {
        self.code.as_slice()
    }
}

#[test]
fn a_block_is_found_by_its_address_and_code(rt: HostRuntime) -> Result<(), Fail> {
    let code = [0xbf, 7, 0, 0, 0, 0xe9, 0xf6, 0x0e, 0, 0];
    let shelf = Shelf::make(rt.alloc())?;
    assert!(rt; shelf.glance(0x40_1000, &code).is_none());
    shelf.show(
        &rt,
        Code {
            at: 0x40_1000,
            code: Vec::from_slice(rt.alloc(), &code)?,
        },
    )?;
    let found = shelf.glance(0x40_1000, &code).ok_or("it is shown")?;
    assert_eq!(rt; found.at, 0x40_1000);
    let mut changed = code;
    changed[9] = 1;
    assert!(rt; shelf.glance(0x40_1000, &changed).is_none());
    assert!(rt; shelf.glance(0x40_1000, &code[..9]).is_none());
    assert!(rt; shelf.glance(0x40_1005, &code).is_none());
    Ok(())
}
