//! What is left of a block.

ghost use Rattle.std.specs.Prelude.{◌≡◌, ◌<◌, ◌==◌, ◌&&◌, nat_lt, [], Some};
ghost use Rattle.elf_image.specs.Layout.{ImageData};
ghost use Rattle.basic_blocks.specs.Places.{instr_at};
ghost use Rattle.basic_blocks.specs.Span.{span};
ghost use Rattle.machine_model.specs.Gated.{is_between, rest_of};
ghost use Rattle.replay_view.specs.Gates.{left_of};

use basic_blocks::instr_at;
use elf_image::Image;
use x86_forms::Instr;

/// The instructions from an address on, at most so many, up to and with the first jump, call or return, or up to where none
/// stands. So what is left of a block needs no list.
#[derive(Clone, Copy, Debug)]
pub(crate) struct Rest {
    at: u64,
    room: u32,
}

impl Rest {
    /// Nothing is left, as between blocks.
    #[tactic(auto, using(crate::proofs::Rests::none_left))]
    pub(crate) fn none() -> Rest
        ensures { (image : ImageData) → left_of image result ≡ [] }
    {
        Rest { at: 0, room: 0 }
    }

    /// The whole block at a code place.
    pub(crate) fn block(a: u64) -> Rest
        ensures block { (image : ImageData) → left_of image result ≡ span image a }
        ensures at { result.at ≡ a }
        ensures room { 0 < result.room }
    {
        Rest { at: a, room: 64 }
    }

    /// Whether nothing is left.
    #[tactic(auto, using(crate::proofs::Rests::no_room, crate::proofs::Rests::some_there, crate::proofs::Rests::none_there))]
    pub(crate) fn is_empty(self, image: &Image) -> bool
        ensures { result ≡ is_between (left_of image.now self) }
    {
        if self.room == 0 {
            return true;
        }
        match instr_at(image, self.at) {
            Some(_) => false,
            None => true,
        }
    }

    /// Whether what is left begins at the address, if an instruction stands there.
    pub(crate) fn is_at(self, a: u64) -> bool
        ensures { result ≡ (nat_lt 0 self.room && (self.at == a)) }
    {
        self.room > 0 && self.at == a
    }

    /// What is left after the first, which is this instruction of so many bytes.
    #[tactic(auto, using(crate::proofs::Rests::past_transfer, crate::proofs::Rests::past_another))]
    pub(crate) fn past(self, instr: &Instr, len: u8) -> Rest
        requires { 0 < self.room }
        ensures { (image : ImageData) → instr_at image self.at ≡ Some (instr.now, len) → left_of image result ≡ rest_of (left_of image self) }
    {
        if instr.is_transfer() {
            return Rest::none();
        }
        Rest {
            at: self.at.wrapping_add(u64::from(len)),
            room: self.room - 1,
        }
    }

    /// What is left after the first, if one is.
    #[tactic(auto, using(crate::proofs::Rests::still_none, crate::proofs::Rests::none_past))]
    pub(crate) fn after(self, image: &Image) -> Rest
        ensures { left_of image.now result ≡ rest_of (left_of image.now self) }
    {
        if self.room == 0 {
            return self;
        }
        match instr_at(image, self.at) {
            Some((instr, len)) => self.past(&instr, len),
            None => self,
        }
    }
}
