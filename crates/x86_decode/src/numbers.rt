//! The numbers that little-endian bytes make.

ghost use Rattle.std.specs.Prelude.{◌≡◌, ◌≤◌, ◌<◌, ◌+◌, ◌*◌, length, slice_index, take};
ghost use Rattle.std.specs.Int.{w8, w16, w32, w64, cast_signed};
ghost use Rattle.x86_forms.specs.Operands.{unsigned, signed, displacement};

#[tactic(auto, using(crate::proofs::LittleEndian::of_one))]
fn of_one(bytes: &[u8]) -> i8
    requires { length bytes.now ≡ 1 }
    ensures { result ≡ cast_signed w8 (unsigned bytes.now) }
{
    bytes[0].cast_signed()
}

#[tactic(auto, using(crate::proofs::LittleEndian::of_two))]
fn of_two(bytes: &[u8]) -> i16
    requires { length bytes.now ≡ 2 }
    ensures { result ≡ cast_signed w16 (unsigned bytes.now) }
{
    (u16::from(bytes[0]) + 256 * u16::from(bytes[1])).cast_signed()
}

#[tactic(auto, using(crate::proofs::LittleEndian::of_three))]
fn of_three(bytes: &[u8]) -> i32
    requires { length bytes.now ≡ 3 }
    ensures { result ≡ cast_signed w64 (unsigned bytes.now) }
{
    let number = u32::from(bytes[0]) + 256 * u32::from(bytes[1]) + 65_536 * u32::from(bytes[2]);
    number.cast_signed()
}

#[tactic(auto, using(crate::proofs::LittleEndian::of_four))]
fn of_four(bytes: &[u8]) -> i32
    requires { length bytes.now ≡ 4 }
    ensures { result ≡ cast_signed w32 (unsigned bytes.now) }
{
    let low = u32::from(bytes[0]) + 256 * u32::from(bytes[1]);
    let high = u32::from(bytes[2]) + 256 * u32::from(bytes[3]);
    (low + 65_536 * high).cast_signed()
}

// The byte at a place, and 0 behind the end.
#[tactic(auto, using(crate::proofs::LittleEndian::behind))]
fn at(bytes: &[u8], place: usize) -> u8
    ensures { result ≡ slice_index bytes.now place }
{
    if place < bytes.len() { bytes[place] } else { 0 }
}

fn half_at(bytes: &[u8], place: usize) -> u64
    requires { place < 8 }
    ensures value { result ≡ slice_index bytes.now place + 256 * slice_index bytes.now (place + 1) + 65536 * slice_index bytes.now (place + 2) + 16777216 * slice_index bytes.now (place + 3) }
    ensures word { result < 4294967296 }
{
    let low = u64::from(at(bytes, place)) + 256 * u64::from(at(bytes, place + 1));
    let high = u64::from(at(bytes, place + 2)) + 256 * u64::from(at(bytes, place + 3));
    low + 65_536 * high
}

#[tactic(auto, using(crate::proofs::LittleEndian::of_eight))]
fn of_eight(bytes: &[u8]) -> i64
    requires { length bytes.now ≤ 8 }
    ensures { result ≡ cast_signed w64 (unsigned bytes.now) }
{
    (half_at(bytes, 0) + (1 << 32) * half_at(bytes, 4)).cast_signed()
}

/// The number that one, two, four or eight bytes make, the top bit being a sign.
#[tactic(auto, unfolding(x86_forms::specs::Operands::signed))]
pub fn signed(bytes: &[u8]) -> i64
    requires { length bytes.now ≤ 8 }
    ensures { result ≡ signed bytes.now }
{
    match bytes.len() {
        1 => i64::from(of_one(bytes)),
        2 => i64::from(of_two(bytes)),
        4 => i64::from(of_four(bytes)),
        _ => of_eight(bytes),
    }
}

/// The same of at most four bytes, and 0 of more.
#[tactic(auto, unfolding(x86_forms::specs::Operands::signed, x86_forms::specs::Operands::displacement), using(crate::proofs::LittleEndian::of_none))]
pub fn displacement(bytes: &[u8]) -> i32
    ensures { result ≡ displacement bytes.now }
{
    match bytes.len() {
        0 => 0,
        1 => i32::from(of_one(bytes)),
        2 => i32::from(of_two(bytes)),
        3 => of_three(bytes),
        4 => of_four(bytes),
        _ => 0,
    }
}

/// The number that the first two bytes make.
#[tactic(auto, using(crate::proofs::LittleEndian::of_front))]
pub fn front(bytes: &[u8]) -> u16
    ensures { result ≡ unsigned (take 2 bytes.now) }
{
    u16::from(at(bytes, 0)) + 256 * u16::from(at(bytes, 1))
}
