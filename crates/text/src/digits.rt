// Numbers into text, put into a buffer from a place on; each function gives the place after it. A text that has no room
// there is not put at all, and the place stays. The caller lends the buffer: nothing here is on a heap.
ghost use Rattle.std.specs.Prelude.{false, ℕ, List, [], ◌∷◌, ◌++◌, ◌≡◌, ◌+◌, ◌*◌, ◌≤◌, ◌<◌, leb, length};
ghost use Rattle.text.specs.Digits.{digit, decimal_text, hex_digit, hex_text, word_text, spaced_text, bytes_text, used, Put, Wrote};

use crate::words::SPACE;

pub fn put(out: &mut [u8], at: usize, byte: u8) -> usize
    ensures { Put out.old at (byte ∷ []) result out.new }
{
    if has_room(out.len(), at, 1) {
        out[at] = byte;
        return at + 1;
    }
    at
}

// A text as it is.
pub fn put_text(out: &mut [u8], at: usize, text: &[u8]) -> usize
    ensures { Put out.old at text.now result out.new }
{
    if has_room(out.len(), at, text.len()) {
        return write_text(out, at, text);
    }
    at
}

// A number in decimal, with no zeros before it.
pub fn put_decimal(out: &mut [u8], at: usize, number: u64) -> usize
    ensures { Put out.old at (decimal_text number) result out.new }
{
    if number < 10 {
        return put(out, at, last_digit(number));
    }
    let count = decimal_length(number);
    if has_room(out.len(), at, count) {
        return write_decimal(out, at, number, count);
    }
    at
}

// A byte as two hex digits.
pub fn put_byte(out: &mut [u8], at: usize, byte: u8) -> usize
    ensures { Put out.old at (hex_text byte) result out.new }
{
    if has_room(out.len(), at, 2) {
        return write_byte(out, at, byte);
    }
    at
}

// Sixteen bits as four hex digits.
pub fn put_word(out: &mut [u8], at: usize, word: u16) -> usize
    ensures { Put out.old at (word_text word) result out.new }
{
    if has_room(out.len(), at, 4) {
        let low = write_byte(out, at, (word / 256) as u8);
        return write_byte(out, low, (word % 256) as u8);
    }
    at
}

// Bytes, with a space before each.
pub fn put_bytes(out: &mut [u8], at: usize, bytes: &[u8]) -> usize
    ensures { Put out.old at (bytes_text bytes.now) result out.new }
{
    if has_room_for_all(out.len(), at, bytes.len()) {
        return write_bytes(out, at, bytes);
    }
    at
}

// Are there so many places from a place on?
pub fn has_room(length: usize, at: usize, count: usize) -> bool
    ensures { result ≡ leb (at + count) length }
{
    if at <= length {
        count <= length - at
    } else {
        false
    }
}

// Each byte takes three places.
fn has_room_for_all(length: usize, at: usize, count: usize) -> bool
    ensures { result ≡ leb (at + 3 * count) length }
{
    if at <= length {
        count <= (length - at) / 3
    } else {
        false
    }
}

fn write_bytes(out: &mut [u8], at: usize, bytes: &[u8]) -> usize
    requires { at + 3 * length bytes.now ≤ length out.old }
    ensures { Wrote out.old at (bytes_text bytes.now) result out.new }
{
    let mut next = at;
    for byte in bytes {
        next = write_spaced(out, next, *byte);
    }
    next
}

fn write_spaced(out: &mut [u8], at: usize, byte: u8) -> usize
    requires { at + 3 ≤ length out.old }
    ensures { Wrote out.old at (spaced_text byte) result out.new }
{
    out[at] = SPACE;
    write_byte(out, at + 1, byte)
}

fn write_byte(out: &mut [u8], at: usize, byte: u8) -> usize
    requires { at + 2 ≤ length out.old }
    ensures { Wrote out.old at (hex_text byte) result out.new }
{
    out[at] = hex_digit(byte / 16);
    out[at + 1] = hex_digit(byte % 16);
    at + 2
}

fn hex_digit(value: u8) -> u8
    requires { value < 16 }
    ensures { result ≡ hex_digit value }
{
    if value < 10 {
        b'0' + value
    } else {
        b'A' - 10 + value
    }
}

fn write_text(out: &mut [u8], at: usize, text: &[u8]) -> usize
    requires { at + length text.now ≤ length out.old }
    ensures { Wrote out.old at text.now result out.new }
{
    let next = at + text.len();
    out[at..next].copy_from_slice(text);
    next
}

// How many digits a number has; none of 64 bits has more than 20.
pub fn decimal_length(number: u64) -> usize
    ensures { (result ≡ length (decimal_text number)) × (result ≤ 20) }
{
    let mut count = 1;
    let mut left = number;
    // By what is left of the number: how many digits there are is what is sought.
    while 10 <= left {
        left = left / 10;
        count += 1;
    }
    count
}

// So many digits, the last one first.
fn write_decimal(out: &mut [u8], at: usize, number: u64, count: usize) -> usize
    requires { (count ≡ length (decimal_text number)) × (at + count ≤ length out.old) }
    ensures { Wrote out.old at (decimal_text number) result out.new }
{
    let mut rest = number;
    let mut place = at + count - 1;
    // By what is left of the number, as its text is defined: the last digit stands behind the text of a tenth of it.
    while 10 <= rest {
        out[place] = last_digit(rest);
        place -= 1;
        rest = rest / 10;
    }
    out[at] = last_digit(rest);
    at + count
}

fn last_digit(number: u64) -> u8
    ensures { result ≡ digit number }
{
    b'0' + ((number % 10) as u8)
}

// How many bytes there are up to the last that is not zero.
pub fn without_zeros(bytes: &[u8]) -> usize
    ensures { (result ≡ used bytes.now) × (result ≤ length bytes.now) }
{
    let mut rest = near_zeros(bytes);
    while let [front @ .., 0] = rest {
        rest = front;
    }
    rest.len()
}

// Bytes behind which all are zero, found sixteen at a time: each such test is one of the machine's.
fn near_zeros(bytes: &[u8]) -> &[u8]
    ensures same { used result.now ≡ used bytes.now }
    ensures short { length result.now ≤ length bytes.now }
{
    let mut rest = bytes;
    while let Some((front, last)) = rest.split_last_chunk::<16>() {
        if is_used(last) {
            return rest;
        }
        rest = front;
    }
    rest
}

// Is one of the bytes not zero? Each is looked at, so that the machine tests all at once.
fn is_used(bytes: &[u8; 16]) -> bool
    ensures { result ≡ false → (front : List ℕ) → used (front ++ bytes.now) ≡ used front }
{
    let mut found = false;
    for byte in bytes {
        found |= *byte != 0;
    }
    found
}
