// Signed numbers at the edge of the board: currents and temperatures come signed, and leave as bits or unsigned numbers.
#![tactic(auto)]

ghost use Rattle.std.specs.Prelude.{◌≡◌};
ghost use Rattle.signed.specs.Signed.{bits_of, from_bits, from_bits32, above, below, lower_of, higher_of, degrees_of};

// How far a current is above zero, 0 if it is not.
pub fn positive(current: i32) -> u32
    ensures { result ≡ above current }
{
    current.max(0).unsigned_abs()
}

// How far a current is below zero, 0 if it is not.
pub fn negative(current: i32) -> u32
    ensures { result ≡ below current }
{
    current.min(0).unsigned_abs()
}

// The lower of two temperatures.
pub fn lower(a: i16, b: i16) -> i16
    ensures { result ≡ lower_of a b }
{
    a.min(b)
}

// The higher of two temperatures.
pub fn higher(a: i16, b: i16) -> i16
    ensures { result ≡ higher_of a b }
{
    a.max(b)
}

// A signed register as its sixteen bits.
#[tactic(auto, unfolding(crate::specs::Signed::bits_of))]
pub fn to_bits(value: i16) -> u16
    ensures { result ≡ bits_of value }
{
    value.cast_unsigned()
}

// The signed register that sixteen bits are.
#[tactic(auto, unfolding(crate::specs::Signed::from_bits))]
pub fn from_bits(bits: u16) -> i16
    ensures { result ≡ from_bits bits }
{
    bits.cast_signed()
}

// The signed number that 32 bits are.
#[tactic(auto, unfolding(crate::specs::Signed::from_bits32))]
pub fn from_bits_32(bits: u32) -> i32
    ensures { result ≡ from_bits32 bits }
{
    bits.cast_signed()
}

// A temperature in whole °C as a byte: rounded toward minus infinity, held to -128 to 127.
#[tactic(auto, unfolding(crate::specs::Signed::degrees_of))]
pub fn degrees(tenths: i16) -> u8
    ensures { result ≡ degrees_of tenths }
{
    (tenths.div_euclid(10).clamp(-128, 127) as i8).cast_unsigned()
}
