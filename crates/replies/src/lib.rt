// Writes a reply into a lent buffer from its start: first its bytes, then `seal`, which ends the frame with zeros after it to the
// end of the buffer, so nothing lent earlier survives. Any buffer may be lent: past its end nothing is put.
#![tactic(auto)]

ghost use Rattle.std.specs.Prelude.{cond, [], ◌∷◌, ◌≡◌, take};
ghost use Rattle.numbers.specs.Numbers.{Wrote};
ghost use Rattle.replies.specs.Replies.{word16, sealed, nack_of, ack_of, length_byte, Filled, Lengthened};

use numbers::{put_byte, put_high_first_16, put_low_first_16, put_pair};

// NACK, ACK: a whole reply.

pub fn nack(reply: &mut [u8], command: u8, error: u8)
    ensures { Filled reply.old (sealed (nack_of command error)) reply.new }
{
    begin(reply, 0x00);
    put_byte(reply, 2, command);
    put_byte(reply, 3, error);
    seal(reply, 4);
}

pub fn ack(reply: &mut [u8], command: u8)
    ensures { Filled reply.old (sealed (ack_of command)) reply.new }
{
    begin(reply, 0x01);
    put_byte(reply, 2, command);
    seal(reply, 3);
}

// AA and the byte after it.
pub fn begin(reply: &mut [u8], second: u8)
    ensures { Wrote reply.old 0 (0xAA ∷ second ∷ []) reply.new }
{
    put_pair(reply, 0, 0xAA, second);
}

// PL where there is one, and the place after it.
pub fn put_length(reply: &mut [u8], has: bool, bytes: u8) -> usize
    ensures { Lengthened reply.old has bytes result reply.new }
{
    if has {
        put_byte(reply, 2, bytes);
        return 3;
    }
    2
}

pub fn put_word(reply: &mut [u8], at: usize, high_first: bool, word: u16)
    ensures { Wrote reply.old at (word16 high_first word) reply.new }
{
    if high_first {
        put_high_first_16(reply, at, word);
    } else {
        put_low_first_16(reply, at, word);
    }
}

// The CRC of the first n bytes after them, and zeros to the end.
pub fn seal(reply: &mut [u8], n: usize)
    ensures { Filled reply.old (sealed (take n reply.old)) reply.new }
{
    let end = n.min(reply.len());
    let crc = crc::crc(&reply[..end]);
    zero_from(reply, end);
    put_word(reply, end, false, crc);
}

// Zeros from a place to the end.
pub fn zero_from(reply: &mut [u8], from: usize)
    ensures { Filled reply.old (take from reply.old) reply.new }
{
    let from = from.min(reply.len());
    reply[from..].fill(0);
}
