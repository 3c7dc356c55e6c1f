// The words of a line: names, decimal numbers and bytes of two hex digits. Only the space parts words.
ghost use Rattle.std.specs.Prelude.{◌≡◌, ◌+◌, ◌*◌, ◌<◌, ◌≤◌, IfSome, leb, length, drop};
ghost use Rattle.text.specs.Words.{word, word_at, ends_word, place_after, read_at, figure_of, words_of, Entered};
ghost use Rattle.text.specs.Scan.{with_digit, starts_minus};
ghost use Rattle.text.specs.Numbers.{number_of, signed_of, byte_of, hex_of};

pub const SPACE: u8 = b' ';

const MINUS: u8 = b'-';

// No number that is asked for is so high, so the digits after it need not be counted.
const TOO_HIGH: u64 = 1000000000000;

// A number and the place after it.
#[derive(Clone, Copy)]
pub struct Figure {
    pub value: u64,
    pub next: usize,
}

// The place of the next word at or after a place; past the line where there is none: a place and no `Option`, since
// what is left of the line is looked at from there.
pub fn next_word(line: &[u8], from: usize) -> usize
    ensures { result ≡ word_at line.now from }
{
    for at in from..line.len() {
        if line[at] != SPACE {
            return at;
        }
    }
    from.max(line.len())
}

// The place after the word that stands at a place.
pub fn word_end(line: &[u8], from: usize) -> usize
    ensures { (result ≡ from + length (word (drop from line.now))) × (from ≤ length line.now → result ≤ length line.now) }
{
    for end in from..line.len() {
        if line[end] == SPACE {
            return end;
        }
    }
    from.max(line.len())
}

// Is no word left?
pub fn is_last(line: &[u8], from: usize) -> bool
    ensures { result ≡ leb (length line.now) (word_at line.now from) }
{
    line.len() <= next_word(line, from)
}

fn ends_word(line: &[u8], at: usize) -> bool
    ensures { result ≡ ends_word (drop at line.now) }
{
    line.len() <= at || line[at] == SPACE
}

// The place after a word that stands whole at a place; none where it does not.
// Nothing in this repository calls it, since the console matches its first word: a caller of the library has it.
pub fn after_word(line: &[u8], from: usize, word: &[u8]) -> Option<usize>
    ensures { result ≡ place_after word.now line.now from }
{
    let mut at = from;
    for code in word {
        if line.len() <= at || line[at] != *code {
            return None;
        }
        at += 1;
    }
    ends_word(line, at).then_some(at)
}

// The next word as a number from 0 to `most`.
pub fn number(line: &[u8], from: usize, most: u32) -> Option<Figure>
    ensures { (result ≡ figure_of (number_of most) line.now from) × IfSome result (λ f. f.value ≤ most) }
{
    digits(line, next_word(line, from), most as u64)
}

// The next word as a number from -most - 1 to `most`, told as most + 1 more, so that the lowest is 0.
pub fn signed_number(line: &[u8], from: usize, most: u32) -> Option<Figure>
    ensures { (result ≡ figure_of (signed_of most) line.now from) × IfSome result (λ f. f.value ≤ 2 * most + 1) }
{
    let at = next_word(line, from);
    let half = (most as u64) + 1;
    if is_minus(line, at) {
        let Figure { value, next } = digits(line, at + 1, half)?;
        return Some(Figure {
            value: half - value,
            next,
        });
    }
    let Figure { value, next } = digits(line, at, half - 1)?;
    Some(Figure {
        value: half + value,
        next,
    })
}

fn is_minus(line: &[u8], at: usize) -> bool
    ensures { result ≡ starts_minus (drop at line.now) }
{
    at < line.len() && line[at] == MINUS
}

// The digits that stand at a place, to the end of a word.
fn digits(line: &[u8], from: usize, most: u64) -> Option<Figure>
    requires { most ≤ 4294967296 }
    ensures read { result ≡ read_at (number_of most) line.now from }
    ensures bound { IfSome result (λ f. f.value ≤ most) }
{
    let mut next = from;
    let mut value: u64 = 0;
    // By places: where the digits end is wanted with their value, in one pass.
    while next < line.len() && line[next].is_ascii_digit() {
        value = with_digit(value, line[next]);
        next += 1;
    }
    if value <= most && from < next && ends_word(line, next) {
        Some(Figure { value, next })
    } else {
        None
    }
}

// The low half of a digit's code is the digit.
fn with_digit(value: u64, code: u8) -> u64
    ensures { result ≡ with_digit value code }
{
    if value < TOO_HIGH {
        10 * value + ((code % 16) as u64)
    } else {
        value
    }
}

// How many words are left, each entered as a number of 16 bits.
pub fn numbers(line: &[u8], from: usize, numbers: &mut [u16]) -> Option<usize>
    ensures { Entered (number_of 65535) (words_of (drop from line.now)) numbers.old result numbers.new }
{
    let mut at = next_word(line, from);
    let mut count = 0;
    // By places: each word says where the next is looked for.
    while at < line.len() {
        if numbers.len() <= count {
            return None;
        }
        let number = digits(line, at, 65535)?;
        numbers[count] = number.value as u16;
        count += 1;
        at = next_word(line, number.next);
    }
    Some(count)
}

// How many words are left, each entered as a byte. Apart from `numbers`: the cell is of another type, and so is what a word is read as.
pub fn bytes(line: &[u8], from: usize, bytes: &mut [u8]) -> Option<usize>
    ensures { Entered byte_of (words_of (drop from line.now)) bytes.old result bytes.new }
{
    let mut at = next_word(line, from);
    let mut count = 0;
    // By places: each word says where the next is looked for.
    while at < line.len() {
        if bytes.len() <= count {
            return None;
        }
        let byte = byte_at(line, at)?;
        bytes[count] = byte.value as u8;
        count += 1;
        at = next_word(line, byte.next);
    }
    Some(count)
}

// Two hex digits that stand at a place, to the end of a word.
fn byte_at(line: &[u8], at: usize) -> Option<Figure>
    ensures read { result ≡ read_at byte_of line.now at }
    ensures bound { IfSome result (λ f. f.value ≤ 255) }
{
    let high = hex_digit(*line.get(at)?)?;
    let low = hex_digit(*line.get(at + 1)?)?;
    let value = (16 * high + low) as u64;
    let next = at + 2;
    ends_word(line, next).then_some(Figure { value, next })
}

// The digit that a letter stands for.
fn hex_digit(code: u8) -> Option<u8>
    ensures digit { result ≡ hex_of code }
    ensures bound { IfSome result (λ digit. digit < 16) }
{
    match code {
        b'0'..=b'9' => Some(code - b'0'),
        b'A'..=b'F' => Some(code - b'A' + 10),
        b'a'..=b'f' => Some(code - b'a' + 10),
        _ => None,
    }
}
