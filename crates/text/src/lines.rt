// Bytes into lines. A line that a block leaves unfinished is carried over in a buffer of its own.
ghost use Rattle.std.specs.Prelude.{false, ℕ, List, ◌++◌, ◌≡◌, ◌+◌, ◌≤◌, length};
ghost use Rattle.text.specs.Lines.{until, is_end, line_end, without_cr, held_of, held_byte, held_all, no_space, Holds};

use crate::digits::has_room;
use crate::words::SPACE;

pub const LF: u8 = b'\n';

const CR: u8 = b'\r';

// The place of the first LF at or after a place; the block's length where there is none: a place and no `Option`, since
// the line ends there too.
pub fn line_end(block: &[u8], from: usize) -> usize
    ensures { result ≡ line_end block.now from }
{
    let near = far_end(block, from);
    for at in near..block.len() {
        if block[at] == LF {
            return at;
        }
    }
    near.max(block.len())
}

// A place with no LF between, found sixteen bytes at a time: each such test is one of the machine's.
fn far_end(block: &[u8], from: usize) -> usize
    ensures { line_end block.now result ≡ line_end block.now from }
{
    let mut at = from;
    while has_room(block.len(), at, 16) {
        if has_end(&block[at..at + 16]) {
            return at;
        }
        at += 16;
    }
    at
}

// Is one of the bytes an LF? Each is looked at, so that the machine tests sixteen at once.
fn has_end(bytes: &[u8]) -> bool
    ensures { result ≡ false → (rest : List ℕ) → until is_end (bytes.now ++ rest) ≡ length bytes.now + until is_end rest }
{
    let mut found = false;
    for byte in bytes {
        found |= *byte == LF;
    }
    found
}

// How long a line is without the CR before its LF.
pub fn without_cr(line: &[u8]) -> usize
    ensures { (result ≡ without_cr line.now) × (result ≤ length line.now) }
{
    match line {
        [front @ .., CR] => front.len(),
        _ => line.len(),
    }
}

// A line that goes on: how much of it is held once a piece stands behind what was held.
pub fn appended(line: &mut [u8], held: usize, piece: &[u8]) -> usize
    ensures { Holds (held_all (held_of held line.old) piece.now) result line.new }
{
    let mut count = held;
    for byte in piece {
        count = held_byte(line, count, *byte);
    }
    count
}

// One byte more. Of a line that fills the buffer, which is longer than any call, only three things still matter: its
// first byte, its last, and whether a byte between them is no space. So the last place but one keeps any such byte.
fn held_byte(line: &mut [u8], held: usize, byte: u8) -> usize
    ensures { Holds (held_byte (held_of held line.old) byte) result line.new }
{
    if held < line.len() {
        line[held] = byte;
        return held + 1;
    }
    if line.len() < 2 {
        return held;
    }
    let last = line.len() - 1;
    line[last - 1] = no_space(line[last - 1], line[last]);
    line[last] = byte;
    held
}

fn no_space(one: u8, other: u8) -> u8
    ensures { result ≡ no_space one other }
{
    if other == SPACE { one } else { other }
}
