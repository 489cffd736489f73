//! Instructions and the bytes that GNU as writes for them.

use super::assemble;
use std::test::Fail;
use x86_forms::{AluOp, Base, Cond, Instr, Mem, OneOp, Operand, ShiftOp, Width};

const RAX: Operand = Operand::Reg(0);

const RCX: Operand = Operand::Reg(1);

const RBX: Operand = Operand::Reg(3);

fn mem(base: Base, index: Option<u8>, scale: u8, disp: i32) -> Mem {
    Mem {
        base,
        index,
        scale,
        disp,
    }
}

fn at(r: u8, disp: i32) -> Operand {
    Operand::Mem(mem(Base::Reg(r), None, 1, disp))
}

fn alu(op: AluOp, w: Width, dst: Operand, src: Operand) -> Instr {
    Instr::Alu { op, w, dst, src }
}

fn mov(w: Width, dst: Operand, src: Operand) -> Instr {
    Instr::Mov { w, dst, src }
}

// mov to eax
fn load(base: Base, index: Option<u8>, scale: u8, disp: i32) -> Instr {
    mov(Width::W32, RAX, Operand::Mem(mem(base, index, scale, disp)))
}

#[test]
fn memory_operands(rt: HostRuntime) -> Result<(), Fail> {
    let rows: [(Instr, &[u8]); 14] = [
        (load(Base::Rip, None, 1, 16), &[0x8B, 0x05, 0x10, 0, 0, 0]),
        (
            load(Base::None, None, 1, 0x1000),
            &[0x8B, 0x04, 0x25, 0, 0x10, 0, 0],
        ),
        (
            load(Base::None, Some(12), 4, 0),
            &[0x42, 0x8B, 0x04, 0xA5, 0, 0, 0, 0],
        ),
        (load(Base::Reg(13), None, 1, 0), &[0x41, 0x8B, 0x45, 0]),
        (load(Base::Reg(4), None, 1, 0), &[0x8B, 0x04, 0x24]),
        (load(Base::Reg(12), None, 1, 0), &[0x41, 0x8B, 0x04, 0x24]),
        (
            load(Base::Reg(5), Some(9), 8, 8),
            &[0x42, 0x8B, 0x44, 0xCD, 8],
        ),
        (load(Base::Reg(5), Some(1), 2, 0), &[0x8B, 0x44, 0x4D, 0]),
        (load(Base::Reg(5), None, 1, -4), &[0x8B, 0x45, 0xFC]),
        (
            load(Base::Reg(3), None, 1, 0x80),
            &[0x8B, 0x83, 0x80, 0, 0, 0],
        ),
        (load(Base::Reg(3), None, 1, -0x80), &[0x8B, 0x43, 0x80]),
        (
            load(Base::Reg(3), None, 1, -0x81),
            &[0x8B, 0x83, 0x7F, 0xFF, 0xFF, 0xFF],
        ),
        (
            Instr::Lea {
                w: Width::W64,
                dst: 0,
                mem: mem(Base::Reg(3), Some(1), 4, 0),
            },
            &[0x48, 0x8D, 0x04, 0x8B],
        ),
        (Instr::Push { src: at(0, 0) }, &[0xFF, 0x30]),
    ];
    for (instr, bytes) in rows {
        let spelling = assemble(rt.alloc(), &instr)?.ok_or("none")?;
        assert_eq!(rt; spelling.as_slice(), bytes);
    }
    Ok(())
}

#[test]
fn registers_and_immediates(rt: HostRuntime) -> Result<(), Fail> {
    let rows: [(Instr, &[u8]); 18] = [
        (alu(AluOp::Add, Width::W32, RAX, RBX), &[0x01, 0xD8]),
        (alu(AluOp::Add, Width::W64, RAX, RBX), &[0x48, 0x01, 0xD8]),
        (alu(AluOp::Add, Width::W8, at(1, 0), RAX), &[0x00, 0x01]),
        (mov(Width::W8, RAX, Operand::Reg(4)), &[0x40, 0x88, 0xE0]),
        (mov(Width::W8, RAX, Operand::High(0)), &[0x88, 0xE0]),
        (
            mov(Width::W8, Operand::High(0), Operand::Imm(5)),
            &[0xB4, 5],
        ),
        (mov(Width::W8, RAX, Operand::Reg(9)), &[0x44, 0x88, 0xC8]),
        (
            alu(AluOp::Add, Width::W16, RAX, Operand::Imm(0xFFF0)),
            &[0x66, 0x83, 0xC0, 0xF0],
        ),
        (
            alu(AluOp::Add, Width::W16, RAX, Operand::Imm(0x1234)),
            &[0x66, 0x05, 0x34, 0x12],
        ),
        (
            alu(AluOp::Cmp, Width::W64, RAX, Operand::Imm(u64::MAX - 127)),
            &[0x48, 0x83, 0xF8, 0x80],
        ),
        (
            alu(AluOp::Cmp, Width::W64, RAX, Operand::Imm(128)),
            &[0x48, 0x3D, 0x80, 0, 0, 0],
        ),
        (
            alu(AluOp::Test, Width::W8, RAX, Operand::Imm(1)),
            &[0xA8, 1],
        ),
        (
            alu(AluOp::Test, Width::W32, RCX, Operand::Imm(1)),
            &[0xF7, 0xC1, 1, 0, 0, 0],
        ),
        (
            mov(
                Width::W64,
                Operand::Reg(8),
                Operand::Imm(0x1122_3344_5566_7788),
            ),
            &[0x49, 0xB8, 0x88, 0x77, 0x66, 0x55, 0x44, 0x33, 0x22, 0x11],
        ),
        (
            mov(Width::W64, RAX, Operand::Imm(u64::MAX)),
            &[0x48, 0xC7, 0xC0, 0xFF, 0xFF, 0xFF, 0xFF],
        ),
        (
            mov(Width::W32, RCX, Operand::Imm(0x8000_0000)),
            &[0xB9, 0, 0, 0, 0x80],
        ),
        (
            Instr::Push {
                src: Operand::Imm(0x80),
            },
            &[0x68, 0x80, 0, 0, 0],
        ),
        (
            Instr::Imul {
                w: Width::W32,
                dst: 0,
                a: RCX,
                b: Operand::Imm(0xFFFF_FFFE),
            },
            &[0x6B, 0xC1, 0xFE],
        ),
    ];
    for (instr, bytes) in rows {
        let spelling = assemble(rt.alloc(), &instr)?.ok_or("none")?;
        assert_eq!(rt; spelling.as_slice(), bytes);
    }
    Ok(())
}

#[test]
fn other_instructions(rt: HostRuntime) -> Result<(), Fail> {
    let counter = mem(Base::Reg(3), None, 1, 0);
    let rows: [(Instr, &[u8]); 15] = [
        (Instr::Nop, &[0x90]),
        (Instr::Pause, &[0xF3, 0x90]),
        (Instr::Endbr, &[0xF3, 0x0F, 0x1E, 0xFA]),
        (Instr::Mfence, &[0x0F, 0xAE, 0xF0]),
        (Instr::Ret { extra: 0 }, &[0xC3]),
        (Instr::Ret { extra: 8 }, &[0xC2, 8, 0]),
        (Instr::Jmp { rel: -2 }, &[0xEB, 0xFE]),
        (
            Instr::Jcc {
                cc: Cond::L,
                rel: 128,
            },
            &[0x0F, 0x8C, 0x80, 0, 0, 0],
        ),
        (Instr::Call { rel: 4 }, &[0xE8, 4, 0, 0, 0]),
        (Instr::CallTo { src: at(0, 8) }, &[0xFF, 0x50, 8]),
        (
            Instr::Shift {
                op: ShiftOp::Sar,
                w: Width::W8,
                dst: Operand::High(0),
                count: None,
            },
            &[0xD2, 0xFC],
        ),
        (
            Instr::Xchg {
                w: Width::W32,
                a: RBX,
                b: RAX,
            },
            &[0x93],
        ),
        (
            Instr::LockAlu {
                op: AluOp::Add,
                w: Width::W16,
                mem: counter,
                src: RAX,
            },
            &[0x66, 0xF0, 0x01, 0x03],
        ),
        (
            Instr::LockOne {
                op: OneOp::Dec,
                w: Width::W8,
                mem: counter,
            },
            &[0xF0, 0xFE, 0x0B],
        ),
        (
            Instr::Xadd {
                w: Width::W64,
                mem: counter,
                reg: RAX,
            },
            &[0xF0, 0x48, 0x0F, 0xC1, 0x03],
        ),
    ];
    for (instr, bytes) in rows {
        let spelling = assemble(rt.alloc(), &instr)?.ok_or("none")?;
        assert_eq!(rt; spelling.as_slice(), bytes);
    }
    Ok(())
}

#[test]
fn without_spelling(rt: HostRuntime) -> Result<(), Fail> {
    let rows = [
        Instr::LockOne {
            op: OneOp::Neg,
            w: Width::W32,
            mem: mem(Base::Reg(3), None, 1, 0),
        },
        mov(Width::W8, Operand::High(0), Operand::Reg(8)),
        mov(Width::W32, Operand::Reg(16), RAX),
        mov(Width::W32, at(0, 0), at(1, 0)),
        alu(AluOp::Add, Width::W64, RAX, Operand::Imm(0x8000_0000)),
        alu(AluOp::Test, Width::W32, RAX, at(0, 0)),
        load(Base::Rip, Some(1), 1, 0),
        load(Base::Reg(0), Some(4), 1, 0),
        load(Base::Reg(0), Some(1), 3, 0),
        Instr::Widen { w: Width::W16 },
    ];
    for instr in rows {
        assert!(rt; assemble(rt.alloc(), &instr)?.is_none());
    }
    Ok(())
}
