//! `lock cmpxchg [rbx], ecx` run by its lines against memory.
ghost use Rattle.std.specs.Prelude.{◌≡◌, ◌∷◌, [], length, IfOk, IsTrue};
ghost use Rattle.ir_meaning.specs.Ready.{Answers};
ghost use Rattle.ir_syntax.specs.Typed.{unwritten, are_parts_typed};

use super::lift_memory;
use guest_state::Virtual;
use ir_meaning::{answer, run_part};
use ir_syntax::{Block, Change, Part, PartEnd, Request, Seq, check_types};
use std::alloc::{AllocError, Global};
use std::test::Fail;
use tso_memory::{Piece, Tso};
use x86_forms::{Base, Instr, Mem, Operand, Width};

// lock cmpxchg [rbx], ecx
const INSTR: Instr = Instr::Cmpxchg {
    w: Width::W32,
    mem: Mem {
        base: Base::Reg(3),
        index: None,
        scale: 1,
        disp: 0,
    },
    reg: Operand::Reg(1),
};

fn zeros(alloc: Global) -> Result<Vec<u8>, AllocError>
    ensures { IfOk result (λ v. length v.items ≡ 8) }
{
    Ok(vec![in alloc; 0u8; 8]?)
}

// Eight zeros at 0x402000.
fn made(alloc: Global) -> Result<Tso, AllocError> {
    let piece = Piece {
        at: 0x402000,
        r: true,
        w: true,
        bytes: zeros(alloc)?,
    };
    let mut pieces = Vec::new(alloc);
    pieces.push(piece)?;
    Tso::make(alloc, pieces)
}

// What memory had before the locked step, and what it has then.
fn exchanged(memory: &mut Tso, request: Request) -> Option<u64> {
    match request {
        Request::Locked {
            a,
            change: Change::Cmpxchg { want, new },
            ..
        } => memory
            .exchange_locked(
                0,
                a,
                tso_memory::Width::W32,
                tso_memory::Change::Cmpxchg { want, new },
            )
            .ok(),
        _ => None,
    }
}

// Gives a locked step of 32 bits its answer.
fn takes(part: &Part, old: u64) -> bool
    ensures { IsTrue result → Answers part.now.end old }
{
    match part.end {
        PartEnd::LockedCmpxchg { w, t, .. } => {
            w == ir_syntax::Width::W32 && t < 8 && old < 0x1_0000_0000
        }
        _ => false,
    }
}

// Runs both parts: the first asks for the locked step, whose answer the second needs.
fn run_both(first: &Part, second: &Part, state: &mut Virtual, memory: &mut Tso) -> bool
    requires { IsTrue (are_parts_typed unwritten (first.now ∷ second.now ∷ [])) }
{
    let request = run_part(first, state);
    let Some(old) = exchanged(memory, request) else {
        return false;
    };
    if !takes(first, old) {
        return false;
    }
    answer(first, state, old);
    run_part(second, state) == Request::Tick
}

fn run(alloc: Global, state: &mut Virtual, memory: &mut Tso) -> Result<bool, AllocError> {
    let parts = lift_memory(alloc, &INSTR, 0x401007)?;
    let block = Block {
        at: 0x401003,
        code: Seq::from_vec(Vec::new(alloc)),
        parts: Seq::from_vec(parts),
    };
    if check_types(&block).is_err() {
        return Ok(false);
    }
    match block.parts.as_slice() {
        [first, second] => Ok(run_both(first, second, state, memory)),
        _ => Ok(false),
    }
}

// memory before; then memory, rax and the zero flag
const ROWS: [(u8, u64, u64, bool); 2] = [(7, 7, 7, false), (5, 9, 0xffff_ffff_0000_0005, true)];

#[test]
fn compare_and_exchange(rt: HostRuntime) -> Result<(), Fail> {
    for (before, after, rax, zf) in ROWS {
        let mut memory = made(rt.alloc())?;
        assert_eq!(rt; memory.poke(0x402000, &[before]), Ok(()));
        let mut state = Virtual::make();
        state.regs[0] = 0xffff_ffff_0000_0005;
        state.regs[1] = 9;
        state.regs[3] = 0x402000;
        assert!(rt; run(rt.alloc(), &mut state, &mut memory)?);
        assert_eq!(rt; memory.load(1, 0x402000, tso_memory::Width::W64), Ok(after));
        assert_eq!(rt; state.regs[0], rax);
        assert_eq!(rt; state.zf, zf);
    }
    Ok(())
}
