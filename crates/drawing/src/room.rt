// Room for a text is counted down, from one more than the places that are there: where nothing is left, it has none. So no length is summed
// up that might be too large.
ghost use Rattle.std.specs.Prelude.{◌≡◌, ◌+◌, ◌-◌, ◌^◌, ◌≤◌, ◌<◌, length};
ghost use Rattle.text.specs.Digits.{decimal_text, Wrote};
ghost use Rattle.drawing.specs.Paths.{part_text};

use text::{decimal_length, put, put_decimal};

// One more than the places from `at` on; past the end there are none.
pub(crate) fn room_from(length: usize, at: usize) -> u64
    requires { length < 2 ^ 63 }
    ensures { result ≡ length + 1 - at }
{
    (length as u64 + 1).saturating_sub(at as u64)
}

pub(crate) fn digits(number: u64) -> u64
    ensures { (result ≡ length (decimal_text number)) × (result ≤ 20) }
{
    decimal_length(number) as u64
}

// A letter and the number behind it.
pub(crate) fn write_part(out: &mut [u8], at: usize, letter: u8, number: u64) -> usize
    requires { at + length (part_text letter number) ≤ length out.old }
    ensures { Wrote out.old at (part_text letter number) result out.new }
{
    let next = put(out, at, letter);
    put_decimal(out, next, number)
}
