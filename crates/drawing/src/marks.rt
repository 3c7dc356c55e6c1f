// Marks of the time axis: how far apart they are, where each stands and what it is labelled. A second has ten ticks; a mark stands at a
// second, and the axis is `span` ticks long, of which `ticks` are recorded.
ghost use Rattle.std.specs.Prelude.{◌++◌, ◌≡◌, ◌+◌, ◌-◌, ◌*◌, ◌≤◌, ◌<◌, leb, length};
ghost use Rattle.text.specs.Digits.{digit, decimal_text, Put};
ghost use Rattle.drawing.specs.Marks.{mark_step, mark_place, has_label, is_day, clock_text, label_text};

use crate::share::{MOST, share};
use text::{decimal_length, has_room, put_decimal, put_text};

const HOUR: u64 = 3600;

const DAY: u64 = 86400;

const WEEK: u64 = 604800;

// Seconds from mark to mark, the smallest first: no recording of 2^46 ticks is too long for the last.
const STEPS: [u64; 41] = [
    1,
    2,
    5,
    10,
    15,
    30,
    60,
    120,
    300,
    600,
    900,
    1800,
    HOUR,
    2 * HOUR,
    3 * HOUR,
    6 * HOUR,
    12 * HOUR,
    DAY,
    2 * DAY,
    WEEK,
    WEEK << 1,
    WEEK << 2,
    WEEK << 3,
    WEEK << 4,
    WEEK << 5,
    WEEK << 6,
    WEEK << 7,
    WEEK << 8,
    WEEK << 9,
    WEEK << 10,
    WEEK << 11,
    WEEK << 12,
    WEEK << 13,
    WEEK << 14,
    WEEK << 15,
    WEEK << 16,
    WEEK << 17,
    WEEK << 18,
    WEEK << 19,
    WEEK << 20,
    WEEK << 21,
];

// The first step of which eight reach so many ticks; past all of them the last.
#[tactic(auto, unfolding(crate::specs::Marks::steps))]
pub fn mark_step(ticks: u64) -> u64
    ensures { result ≡ mark_step ticks }
{
    for step in STEPS {
        if reaches(step, ticks) {
            return step;
        }
    }
    STEPS[40]
}

// How far along the axis a second stands, in hundredths of a per cent.
#[tactic(auto, unfolding(crate::specs::Heights::share_of))]
pub fn mark_place(second: u64, span: u64) -> u64
    ensures { result ≡ mark_place second span }
{
    share(second.saturating_mul(10), span, 10000)
}

// The label at 0 always, another only where it is not cut: where three quarters of a step are left.
pub fn has_label(second: u64, step: u64, span: u64) -> bool
    ensures { result ≡ has_label second step span }
{
    if second == 0 {
        return true;
    }
    let left = span.saturating_sub(second.saturating_mul(10)).min(MOST * 8);
    step.min(MOST) * 30 <= left * 4
}

pub fn put_label(out: &mut [u8], at: usize, second: u64, step: u64, ticks: u64) -> usize
    ensures { Put out.old at (label_text second step ticks) result out.new }
{
    if is_day(second, step, ticks) {
        return put_around(out, at, b"Day ", second / DAY + 1, b"");
    }
    if step < 60 {
        return put_around(out, at, b"", second, b" s");
    }
    if ticks <= 10 * HOUR {
        return put_around(out, at, b"", second / 60, b" min");
    }
    put_clock(out, at, second)
}

// Do eight steps reach so many ticks?
fn reaches(step: u64, ticks: u64) -> bool
    ensures { result ≡ leb ticks (step * 80) }
{
    ticks / 80 + (ticks % 80 + 79) / 80 <= step
}

fn is_day(second: u64, step: u64, ticks: u64) -> bool
    ensures { result ≡ is_day second step ticks }
{
    (DAY <= step) | ((10 * DAY < ticks) & (second % DAY == 0))
}

// The hour and minute of the day.
fn put_clock(out: &mut [u8], at: usize, second: u64) -> usize
    ensures { Put out.old at (clock_text second) result out.new }
{
    let minute = second / 60 % 60;
    let behind = [b':', digit_of(minute / 10), digit_of(minute)];
    put_around(out, at, b"", second / HOUR % 24, &behind)
}

// A number in decimal between two texts.
fn put_around(out: &mut [u8], at: usize, before: &[u8], number: u64, behind: &[u8]) -> usize
    requires { (length before.now ≤ 4) × (length behind.now ≤ 4) }
    ensures { Put out.old at (before.now ++ decimal_text number ++ behind.now) result out.new }
{
    let length = before.len() + decimal_length(number) + behind.len();
    if has_room(out.len(), at, length) {
        let first = put_text(out, at, before);
        let last = put_decimal(out, first, number);
        return put_text(out, last, behind);
    }
    at
}

fn digit_of(number: u64) -> u8
    ensures { result ≡ digit number }
{
    b'0' + ((number % 10) as u8)
}
