// The runs of columns in which a bit is set, each a closed box of the whole height.
ghost use Rattle.std.specs.Prelude.{◌≡◌, ◌+◌, ◌-◌, ◌^◌, ◌≤◌, ◌<◌, length};
ghost use Rattle.text.specs.Digits.{Put, Wrote};
ghost use Rattle.drawing.specs.Paths.{is_set, any_set, run_to, ending_run, run_text, runs_text};

use crate::room::{digits, room_from, write_part};
use text::{put, put_decimal, put_text};

// `of` is the weight of the bit; 0 is read as 1.
pub fn put_runs(out: &mut [u8], at: usize, bits: &[u32], of: u32, height: u32) -> usize
    ensures { Put out.old at (runs_text of bits.now height) result out.new }
{
    let runs = Runs { bits, of, height };
    if 0 < runs.left(room_from(out.len(), at)) {
        return runs.write(out, at);
    }
    at
}

// Is the bit set in any column?
pub fn any_set(bits: &[u32], of: u32) -> bool
    ensures { result ≡ any_set of bits.now }
{
    for word in bits {
        if is_set(*word, of) {
            return true;
        }
    }
    false
}

// The runs of the bit of a weight, and the height of their boxes.
#[derive(Clone, Copy)]
struct Runs<'a> {
    bits: &'a [u32],
    of: u32,
    height: u32,
}

impl Runs<'_> {
    fn left(&self, room: u64) -> u64
        ensures { result ≡ room - length (runs_text self.now.of self.now.bits.now self.now.height) }
    {
        let mut left = room;
        let mut run = 0;
        for i in 0..self.bits.len() {
            run = self.run_with(i, run);
            left = left.saturating_sub(self.run_length(i, self.ended(i, run)));
        }
        left
    }

    fn write(&self, out: &mut [u8], at: usize) -> usize
        requires { at + length (runs_text self.now.of self.now.bits.now self.now.height) ≤ length out.old }
        ensures { Wrote out.old at (runs_text self.now.of self.now.bits.now self.now.height) result out.new }
    {
        let mut next = at;
        let mut run = 0;
        for i in 0..self.bits.len() {
            run = self.run_with(i, run);
            next = self.write_run(out, next, i, self.ended(i, run));
        }
        next
    }

    // How many columns in a row are set up to this one.
    fn run_with(&self, i: usize, run: usize) -> usize
        requires { (run ≡ run_to self.now.of self.now.bits.now i) × (run ≤ i) × (i < length self.now.bits.now) }
        ensures { (result ≡ run_to self.now.of self.now.bits.now (i + 1)) × (result ≤ i + 1) }
    {
        if is_set(self.bits[i], self.of) {
            return run + 1;
        }
        0
    }

    // How many columns the run has that ends with this one; 0 where none does.
    fn ended(&self, i: usize, run: usize) -> usize
        requires { (run ≡ run_to self.now.of self.now.bits.now (i + 1)) × (i < length self.now.bits.now) }
        ensures { (result ≡ ending_run self.now.of self.now.bits.now i) × (result ≤ run) }
    {
        if i + 1 < self.bits.len() {
            if is_set(self.bits[i + 1], self.of) {
                return 0;
            }
        }
        run
    }

    fn run_length(&self, i: usize, run: usize) -> u64
        requires { (run ≤ i + 1) × (i + 1 < 2 ^ 64) }
        ensures { result ≡ length (run_text self.now.height i run) }
    {
        if run == 0 {
            return 0;
        }
        8 + digits((i + 1 - run) as u64) + 2 * digits(run as u64) + digits(self.height as u64)
    }

    fn write_run(&self, out: &mut [u8], at: usize, i: usize, run: usize) -> usize
        requires { (run ≤ i + 1) × (i + 1 < 2 ^ 64) × (at + length (run_text self.now.height i run) ≤ length out.old) }
        ensures { Wrote out.old at (run_text self.now.height i run) result out.new }
    {
        if run == 0 {
            return at;
        }
        let from = write_part(out, at, b'M', (i + 1 - run) as u64);
        let wide = put_text(out, from, b" 0h");
        let high = put_decimal(out, wide, run as u64);
        let back = write_part(out, high, b'v', self.height as u64);
        let minus = put_text(out, back, b"h-");
        let end = put_decimal(out, minus, run as u64);
        put(out, end, b'z')
    }
}

fn is_set(word: u32, of: u32) -> bool
    ensures { result ≡ is_set of word }
{
    word / of.max(1) % 2 == 1
}
