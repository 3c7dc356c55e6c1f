// Numbers as bytes and as registers. Any place may be asked: a byte past the end reads 0, and is not put.
#![tactic(auto)]

ghost use Rattle.std.specs.Prelude.{[], ◌∷◌, ◌≡◌, ◌+◌, min, ℕ, ◌<◌, get_or};
ghost use Rattle.laws.specs.Row.{row};
ghost use Rattle.numbers.specs.Numbers.{low_first_or, le16_at, le32_at, le64_at, be16_at, le16, le32, le64, be16, Wrote, low_half, high_half, half_of};

// No reply has more words.
pub const WORDS: usize = 127;

// So many words of a reply, each what the function gives of its place; zeros after them.
pub fn words<F: Fn(u16) -> u16>(count: u8, word: F) -> [u16; WORDS]
    requires { (i : ℕ) → i < 127 → F.pre word i }
    ensures { (f : ℕ → ℕ) → ((i v : ℕ) → i < 127 → F.post word i v → v ≡ f i) → result ≡ row 127 f (min 127 count) }
{
    let mut words = [0; WORDS];
    for i in 0..up_to_127(count) {
        words[usize::from(i)] = word(i);
    }
    words
}

// As many words as a reply can have.
fn up_to_127(count: u8) -> u16
    ensures { result ≡ min 127 count }
{
    u16::from(count.min(127))
}

// The two halves of a pair of registers.

pub fn low(n: u32) -> u16
    ensures { result ≡ low_half n }
{
    (n % 65536) as u16
}

pub fn high(n: u32) -> u16
    ensures { result ≡ high_half n }
{
    (n / 65536) as u16
}

// The half that is the i-th word of a row of pairs.
pub fn half(n: u32, i: u16) -> u16
    ensures { result ≡ half_of n i }
{
    if i % 2 == 0 { low(n) } else { high(n) }
}

// A number read from bytes.

pub fn byte_or(bytes: &[u8], at: usize, past: u8) -> u8
    ensures { result ≡ get_or bytes.now at past }
{
    bytes.get(at).copied().unwrap_or(past)
}

pub fn byte_at(bytes: &[u8], at: usize) -> u8
    ensures { result ≡ get_or bytes.now at 0 }
{
    byte_or(bytes, at, 0)
}

pub fn low_first_16(bytes: &[u8], at: usize) -> u16
    ensures { result ≡ le16_at bytes.now at }
{
    u16::from_le_bytes(bytes_from(bytes, at, 0))
}

pub fn high_first_16(bytes: &[u8], at: usize) -> u16
    ensures { result ≡ be16_at bytes.now at }
{
    u16::from_be_bytes(bytes_from(bytes, at, 0))
}

pub fn low_first_32(bytes: &[u8], at: usize) -> u32
    ensures { result ≡ le32_at bytes.now at }
{
    low_first_32_or(bytes, at, 0)
}

pub fn low_first_32_or(bytes: &[u8], at: usize, past: u8) -> u32
    ensures { result ≡ low_first_or past 4 bytes.now at }
{
    u32::from_le_bytes(bytes_from(bytes, at, past))
}

pub fn low_first_64(bytes: &[u8], at: usize) -> u64
    ensures { result ≡ le64_at bytes.now at }
{
    u64::from_le_bytes(bytes_from(bytes, at, 0))
}

// So many bytes from a place on; past the largest place there is none.
fn bytes_from<const N: usize>(bytes: &[u8], at: usize, past: u8) -> [u8; N]
    ensures { (k : ℕ) → k < N → get_or result k 0 ≡ get_or bytes.now (at + k) past }
{
    let mut row = [past; N];
    for (place, byte) in row.iter_mut().enumerate() {
        *byte = byte_or(bytes, at.saturating_add(place), past);
    }
    row
}

// A number put into bytes.

pub fn put_byte(bytes: &mut [u8], at: usize, byte: u8)
    ensures { Wrote bytes.old at (byte ∷ []) bytes.new }
{
    if at < bytes.len() {
        bytes[at] = byte;
    }
}

pub fn put_pair(bytes: &mut [u8], at: usize, first: u8, second: u8)
    ensures { Wrote bytes.old at (first ∷ second ∷ []) bytes.new }
{
    put_bytes(bytes, at, [first, second]);
}

pub fn put_low_first_16(bytes: &mut [u8], at: usize, n: u16)
    ensures { Wrote bytes.old at (le16 n) bytes.new }
{
    put_bytes(bytes, at, u16::to_le_bytes(n));
}

pub fn put_high_first_16(bytes: &mut [u8], at: usize, n: u16)
    ensures { Wrote bytes.old at (be16 n) bytes.new }
{
    put_bytes(bytes, at, u16::to_be_bytes(n));
}

pub fn put_low_first_32(bytes: &mut [u8], at: usize, n: u32)
    ensures { Wrote bytes.old at (le32 n) bytes.new }
{
    put_bytes(bytes, at, u32::to_le_bytes(n));
}

pub fn put_low_first_64(bytes: &mut [u8], at: usize, n: u64)
    ensures { Wrote bytes.old at (le64 n) bytes.new }
{
    put_bytes(bytes, at, u64::to_le_bytes(n));
}

// Bytes from a place on; past the largest place none is put.
fn put_bytes<const N: usize>(bytes: &mut [u8], at: usize, row: [u8; N])
    ensures { Wrote bytes.old at row.entry bytes.new }
{
    for (place, byte) in row.iter().enumerate() {
        put_byte(bytes, at.saturating_add(place), *byte);
    }
}
