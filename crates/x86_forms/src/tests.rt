//! Each public call once, with values from the SDM's tables and from what objdump prints.

use super::*;

fn mem(base: Base, index: Option<u8>, scale: u8, disp: i32) -> Mem {
    Mem {
        base,
        index,
        scale,
        disp,
    }
}

#[test]
fn modrm_and_sib_name_places(rt: HostRuntime) {
    let rows = [
        // 8B C1; 41 8B C1
        (0, 0xC1, 0, 0, Place::Reg(1)),
        (0x41, 0xC1, 0, 0, Place::Reg(9)),
        // 48 8B 05 10 00 00 00 and 49 8B 05 10 00 00 00: [rip+0x10]
        (0x48, 0x05, 0, 16, Place::Mem(mem(Base::Rip, None, 1, 16))),
        (0x49, 0x05, 0, 16, Place::Mem(mem(Base::Rip, None, 1, 16))),
        // 43 8B 04 A5 00 10 00 00: [r12*4+0x1000]
        (
            0x43,
            0x04,
            0xA5,
            4096,
            Place::Mem(mem(Base::None, Some(12), 4, 4096)),
        ),
        // 41 8B 04 24: [r12]; 42 8B 44 CD 08: [rbp+r9*8+0x8]
        (
            0x41,
            0x04,
            0x24,
            0,
            Place::Mem(mem(Base::Reg(12), None, 1, 0)),
        ),
        (
            0x42,
            0x44,
            0xCD,
            8,
            Place::Mem(mem(Base::Reg(5), Some(9), 8, 8)),
        ),
        // 41 8B 45 FC: [r13-0x4]
        (
            0x41,
            0x45,
            0,
            -4,
            Place::Mem(mem(Base::Reg(13), None, 1, -4)),
        ),
    ];
    for (rex, modrm, sib, disp, place) in rows {
        assert!(rt;
            Place::from_bytes(rex, modrm, sib, disp) == place,
            "at {rex:x} {modrm:x} {sib:x}"
        );
    }
    let lengths = [
        (0xC1, 0, false, 0),
        (0x05, 0, false, 4),
        (0x04, 0xA5, true, 4),
        (0x04, 0x24, true, 0),
        (0x44, 0xCD, true, 1),
        (0x84, 0xCD, true, 4),
    ];
    for (modrm, sib, followed, len) in lengths {
        assert_eq!(rt; has_sib(modrm), followed, "at {modrm:x}");
        assert_eq!(rt; displacement_len(modrm, sib), len, "at {modrm:x} {sib:x}");
    }
}

#[test]
fn widths_and_registers(rt: HostRuntime) {
    assert!(rt; Operand::register(Width::W8, true, 4) == Operand::High(0));
    assert!(rt; Operand::register(Width::W8, false, 4) == Operand::Reg(4));
    assert!(rt; Place::Reg(7).operand(Width::W8, true) == Operand::High(3));
    assert!(rt; Place::Reg(7).operand(Width::W32, true).kind() == OperandKind::Register);
    assert!(rt; !Operand::Imm(5).is_memory());
    assert!(rt; Size::V.width(true, 0) == Some(Width::W16));
    assert!(rt; Size::D.width(true, 0).is_none());
    assert!(rt; Size::D.width(true, 0x48) == Some(Width::W64));
    assert_eq!(rt; Tail::Iz.len(Width::W16), 2);
    assert_eq!(rt; Tail::Iv.len(Width::W64), 8);
    assert_eq!(rt; Width::W16.immediate(-1), 0xFFFF);
    assert_eq!(rt; Width::W64.immediate(-128), 0xFFFF_FFFF_FFFF_FF80);
    assert_eq!(rt; Width::W64.bits(), 64);
}

#[test]
fn instructions_have_groups(rt: HostRuntime) {
    let rax = Operand::Reg(0);
    let at_rbx = mem(Base::Reg(3), None, 1, 0);
    let load = Instr::Mov {
        w: Width::W64,
        dst: rax,
        src: Operand::Mem(at_rbx),
    };
    let lea = Instr::Lea {
        w: Width::W64,
        dst: 0,
        mem: at_rbx,
    };
    assert!(rt; load.group() == Group::Memory && load.touches_memory());
    assert!(rt; lea.group() == Group::Private && lea != load);
    assert!(rt;
        Instr::Ret { extra: 0 }.group() == Group::Transfer && Instr::Ret { extra: 0 }.is_transfer()
    );
    for code in 0..16 {
        let cond = Cond::from_code(code);
        assert_eq!(rt; cond.code(), code);
        assert_eq!(rt; cond.negated().code(), code ^ 1);
        assert!(rt;
            cond.holds(false, false, true, false, true)
                != cond.negated().holds(false, false, true, false, true)
        );
    }
}
