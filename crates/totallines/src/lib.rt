// The lines that tell a bill, put into a buffer from a place on: the count and the totals, a line each, and after a refusal its number. Where
// they have no room they are not put at all, and the place stays.
#![tactic(auto)]

ghost use Rattle.std.specs.Prelude.{◌≡◌, ◌+◌, ◌≤◌, length};
ghost use Rattle.text.specs.Digits.{each_text, Put, Wrote};
ghost use Rattle.totallines.specs.TotalLines.{line_of, refusal_in, lines_of};

use refusals::{Outcome, number_of};
use text::{LF, decimal_length, has_room, put, put_decimal};
use totals::Billed;

// The lines take no more: six, of 20 digits and an end.
pub const ALL_LINES: usize = 126;

// Gives the place after them.
pub fn put_lines(out: &mut [u8], at: usize, billed: Billed) -> usize
    ensures { Put out.old at (lines_of billed) result out.new }
{
    let totals = billed.totals;
    let outcome = billed.outcome;
    let values = [
        totals.count,
        totals.seconds,
        totals.positive,
        totals.negative,
        totals.distance,
        number_of(outcome) as u64,
    ];
    let count = told_count(outcome);
    put_values(out, at, &values[..count])
}

// A number is told only where there is a refusal.
fn told_count(outcome: Outcome) -> usize
    ensures { (result ≡ 5 + length (refusal_in outcome)) × (result ≤ 6) }
{
    match outcome {
        Ok(()) => 5,
        Err(_) => 6,
    }
}

fn put_values(out: &mut [u8], at: usize, values: &[u64]) -> usize
    requires { length values.now ≤ 6 }
    ensures { Put out.old at (each_text line_of values.now) result out.new }
{
    if has_room(out.len(), at, lines_length(values)) {
        return write_lines(out, at, values);
    }
    at
}

fn lines_length(values: &[u64]) -> usize
    requires { length values.now ≤ 6 }
    ensures { result ≡ length (each_text line_of values.now) }
{
    let mut all = 0;
    for value in values {
        all += line_length(*value);
    }
    all
}

fn line_length(value: u64) -> usize
    ensures { (result ≡ length (line_of value)) × (result ≤ 21) }
{
    decimal_length(value) + 1
}

fn write_lines(out: &mut [u8], at: usize, values: &[u64]) -> usize
    requires { at + length (each_text line_of values.now) ≤ length out.old }
    ensures { Wrote out.old at (each_text line_of values.now) result out.new }
{
    let mut next = at;
    for value in values {
        next = write_line(out, next, *value);
    }
    next
}

fn write_line(out: &mut [u8], at: usize, value: u64) -> usize
    requires { at + length (line_of value) ≤ length out.old }
    ensures { Wrote out.old at (line_of value) result out.new }
{
    let end = put_decimal(out, at, value);
    put(out, end, LF)
}
