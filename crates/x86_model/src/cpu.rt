ghost use Rattle.std.specs.Prelude.{◌≡◌, ◌<◌, ◌^◌};
ghost use Rattle.x86_forms.specs.Widths.{bits_in};
ghost use Rattle.x86_model.specs.Registers.{written, written_high};

use crate::width::low;
use x86_flags::Flags;
use x86_forms::Width;

/// What the instructions of one thread work on (Intel SDM, Volume 1, 3.4).
#[derive(Clone, Copy, Debug, PartialEq, Eq)]
pub struct Cpu {
    /// The sixteen general registers: rax 0, rcx 1, rdx 2, rbx 3, rsp 4, rbp 5, rsi 6, rdi 7, then r8 to r15.
    pub regs: [u64; 16],
    /// The status flags.
    pub flags: Flags,
    /// The address of the instruction that is under way or comes next.
    pub rip: u64,
    /// The address of the instruction that was finished last, 0 at birth.
    pub last: u64,
    /// What the instruction under way has loaded, or none where it has not loaded yet.
    pub mid: Option<u64>,
}

impl Cpu {
    ghost use Rattle.x86_model.specs.Thread.{start};
    ghost use Rattle.x86_model.specs.Registers.{reg, get, high_byte, put, put_high, with_flags, loaded, going_to};

    /// All registers are 0 and all flags are clear.
    #[tactic(auto, unfolding(crate::specs::Thread::start))]
    pub fn make() -> Cpu
        ensures { result ≡ start }
    {
        Cpu {
            regs: [0; 16],
            flags: Flags {
                cf: false,
                pf: false,
                zf: false,
                sf: false,
                of: false,
            },
            rip: 0,
            last: 0,
            mid: None,
        }
    }

    /// Register `r`, or 0 where there is none with that number.
    pub fn reg(&self, r: u8) -> u64
        ensures { result ≡ reg self.now r }
    {
        if r < 16 { self.regs[r as usize] } else { 0 }
    }

    /// The low bits of register `r`.
    #[tactic(auto, unfolding(crate::specs::Registers::get))]
    pub fn get(&self, w: Width, r: u8) -> u64
        ensures value { result ≡ get self.now w r }
        ensures bound { result < 2 ^ bits_in w }
    {
        low(w, self.reg(r))
    }

    /// The second lowest byte of register `r`.
    #[tactic(auto, unfolding(crate::specs::Registers::high_byte))]
    pub fn get_high(&self, r: u8) -> u64
        ensures value { result ≡ high_byte (reg self.now r) }
        ensures bound { result < 2 ^ 8 }
    {
        self.reg(r) / 0x100 % 0x100
    }

    /// Writes the low bits of a number to register `r`. A write of 64 bits replaces all, one of 32 bits
    /// zeroes the upper half, and one of 16 or 8 bits keeps the other bits (Intel SDM, Volume 1, 3.4.1.1).
    #[tactic(auto, unfolding(crate::specs::Registers::put))]
    pub fn put(self, w: Width, r: u8, v: u64) -> Cpu
        ensures { result ≡ put self w r v }
    {
        let mut next = self;
        if r < 16 {
            next.regs[r as usize] = written(w, self.regs[r as usize], v);
        }
        next
    }

    /// Writes the lowest byte of a number to the second lowest byte of register `r`.
    #[tactic(auto, unfolding(crate::specs::Registers::put_high))]
    pub fn put_high(self, r: u8, v: u64) -> Cpu
        ensures { result ≡ put_high self r v }
    {
        let mut next = self;
        if r < 16 {
            next.regs[r as usize] = written_high(self.regs[r as usize], v);
        }
        next
    }

    /// The same with other flags.
    pub fn with_flags(self, flags: Flags) -> Cpu
        ensures { result ≡ with_flags self flags }
    {
        Cpu { flags, ..self }
    }

    /// The low bits of the value that the instruction under way has loaded.
    #[tactic(auto, unfolding(crate::specs::Registers::loaded))]
    pub fn loaded(&self, w: Width) -> u64
        ensures value { result ≡ loaded self.now w }
        ensures bound { result < 2 ^ bits_in w }
    {
        match self.mid {
            Some(v) => low(w, v),
            None => low(w, 0),
        }
    }

    /// The end of an instruction that goes on at an address.
    #[tactic(auto, unfolding(crate::specs::Registers::going_to))]
    pub fn going_to(self, a: u64) -> Cpu
        ensures { result ≡ going_to self a }
    {
        Cpu {
            last: self.rip,
            rip: a,
            mid: None,
            ..self
        }
    }
}

// A register after a write of this width.
#[tactic(auto, unfolding(crate::specs::Registers::written))]
fn written(w: Width, before: u64, v: u64) -> u64
    ensures { result ≡ written w before v }
{
    match w {
        Width::W8 => before / 0x100 * 0x100 + v % 0x100,
        Width::W16 => before / 0x1_0000 * 0x1_0000 + v % 0x1_0000,
        Width::W32 => v % 0x1_0000_0000,
        Width::W64 => v,
    }
}

// A register after a write to its second lowest byte.
#[tactic(auto, unfolding(crate::specs::Registers::written_high))]
fn written_high(before: u64, v: u64) -> u64
    ensures { result ≡ written_high before v }
{
    before / 0x1_0000 * 0x1_0000 + v % 0x100 * 0x100 + before % 0x100
}
