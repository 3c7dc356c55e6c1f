// Bytes that wait in a buffer until they are written to standard output, so that many lines go by one call of the operating system; and
// what is told on standard error.
ghost use Rattle.std.specs.Prelude.{cond, ◌≡◌, ◌+◌, leb, length};

use std::io::Write;
use text::{has_room, put_decimal};

// For the longest number of 64 bits.
const DIGITS: usize = 20;

// How many bytes wait, and whether all before them are written. No Result: the count is promised after a failure too.
#[derive(Clone, Copy)]
pub struct Waiting {
    pub count: usize,
    pub is_well: bool,
}

// There are so many places behind what waits: all is written where there are fewer.
pub fn with_room<W: Write>(output: &mut W, out: &[u8], waiting: usize, places: usize) -> Waiting
    ensures { result.count ≡ cond (leb (waiting + places) (length out.now)) waiting 0 }
{
    if has_room(out.len(), waiting, places) {
        return Waiting {
            count: waiting,
            is_well: true,
        };
    }
    let count = waiting.min(out.len());
    Waiting {
        count: 0,
        is_well: put(true, output, &out[..count]),
    }
}

// Whether all that waits, and all before it, is written.
pub fn written<W: Write>(output: &mut W, out: &[u8], waiting: Waiting) -> bool {
    let count = waiting.count.min(out.len());
    put(waiting.is_well, output, &out[..count])
}

// Whether the bytes are written; after a failure nothing is.
pub fn put<W: Write>(is_well: bool, output: &mut W, bytes: &[u8]) -> bool {
    is_well && output.write_all(bytes).is_ok()
}

// Whether the number is written, in decimal; after a failure nothing is.
pub fn put_number<W: Write>(is_well: bool, output: &mut W, number: u64) -> bool {
    let mut digits = [0u8; DIGITS];
    let count = put_decimal(&mut digits, 0, number);
    let length = count.min(DIGITS);
    put(is_well, output, &digits[..length])
}

// A line where the input could not be read or the output not be written.
pub fn tell_failure<W: Write>(messages: &mut W, name: &[u8], is_read: bool, is_written: bool) {
    if !is_written {
        tell(messages, name);
        tell(messages, b": standard output cannot be written\n");
    } else if !is_read {
        tell(messages, name);
        tell(messages, b": standard input cannot be read\n");
    }
}

// On standard error. Where that fails too there is nobody left to tell.
pub fn tell<W: Write>(messages: &mut W, words: &[u8]) {
    let _ = put(true, messages, words);
}

pub fn tell_number<W: Write>(messages: &mut W, number: u64) {
    let _ = put_number(true, messages, number);
}
