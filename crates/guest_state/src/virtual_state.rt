ghost use Rattle.std.specs.Prelude.{◌≡◌, ◌≢◌, ◌<◌, ◌^◌, ℕ, slice_index};
ghost use Rattle.guest_state.specs.Register.{written, written_high};
ghost use Rattle.guest_state.specs.Width.{bits};

use crate::width::Width;

/// What belongs to one guest thread alone: general registers, temporaries and status flags.
///
/// The registers are numbered as in instructions: rax 0, rcx 1, rdx 2, rbx 3, rsp 4, rbp 5, rsi 6,
/// rdi 7, then r8 to r15.
#[derive(Clone, Copy, Debug, PartialEq, Eq)]
pub struct Virtual {
    pub regs: [u64; 16],
    pub temps: [u64; 8],
    pub cf: bool,
    pub pf: bool,
    pub zf: bool,
    pub sf: bool,
    pub of: bool,
}

impl Virtual {
    ghost use Rattle.guest_state.specs.Virtual.{start, get_of, get_high_of, put_of, put_high_of};

    /// All registers and temporaries are 0, and all flags are clear.
    #[tactic(auto, unfolding(crate::specs::Virtual::start))]
    pub fn make() -> Virtual
        ensures { result ≡ start }
    {
        Virtual {
            regs: [0; 16],
            temps: [0; 8],
            cf: false,
            pf: false,
            zf: false,
            sf: false,
            of: false,
        }
    }

    /// The low bits of register `r` (below 16), as many as `w` has.
    pub fn get(&self, r: u8, w: Width) -> u64
        requires { r < 16 }
        ensures value { result ≡ get_of self.now r w }
        ensures bound { result < 2 ^ bits w }
    {
        self.regs[r as usize] & w.mask()
    }

    /// Bits 8 to 15 of register `r` (below 4): AH, CH, DH or BH.
    pub fn get_high(&self, r: u8) -> u64
        requires { r < 4 }
        ensures value { result ≡ get_high_of self.now r }
        ensures bound { result < 2 ^ 8 }
    {
        (self.regs[r as usize] >> 8) & 0xff
    }

    /// Writes a number of width `w` to register `r` (below 16). A write of 64 bits replaces all, one
    /// of 32 bits zeroes the upper half, and one of 16 or 8 bits keeps the other bits (Intel SDM
    /// Volume 1, section 3.4.1.1).
    pub fn put(&mut self, r: u8, w: Width, v: u64)
        requires register { r < 16 }
        requires fits { v < 2 ^ bits w }
        ensures written { self.new ≡ put_of self.old r w v }
        ensures reads_back { get_of self.new r w ≡ v }
        ensures others { (q : ℕ) → q ≢ r → slice_index self.new.regs q ≡ slice_index self.old.regs q }
    {
        let place = r as usize;
        self.regs[place] = written(w, self.regs[place], v);
    }

    /// Writes a byte to bits 8 to 15 of register `r` (below 4). All other bits stay.
    pub fn put_high(&mut self, r: u8, v: u64)
        requires register { r < 4 }
        requires fits { v < 2 ^ 8 }
        ensures written { self.new ≡ put_high_of self.old r v }
        ensures reads_back { get_high_of self.new r ≡ v }
        ensures others { (q : ℕ) → q ≢ r → slice_index self.new.regs q ≡ slice_index self.old.regs q }
    {
        let place = r as usize;
        self.regs[place] = written_high(self.regs[place], v);
    }
}

// A register after a write of this width.
#[tactic(auto, unfolding(crate::specs::Register::written))]
fn written(w: Width, before: u64, v: u64) -> u64
    requires { v < 2 ^ bits w }
    ensures { result ≡ written w before v }
{
    match w {
        Width::W8 => (before & !0xff) | v,
        Width::W16 => (before & !0xffff) | v,
        Width::W32 => v,
        Width::W64 => v,
    }
}

// A register after a write to bits 8 to 15.
fn written_high(before: u64, v: u64) -> u64
    requires { v < 2 ^ 8 }
    ensures { result ≡ written_high before v }
{
    (before & !0xffff) | (v << 8) | (before & 0xff)
}
