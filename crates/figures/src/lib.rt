// Figures, times and durations as they are printed, put into a buffer from a place on; each function gives the place after. A text that has
// no room there is not put at all, and the place stays. A tick is a tenth of a second.
#![tactic(auto)]

ghost use Rattle.std.specs.Prelude.{true, false, ◌≡◌, ◌+◌, ◌≤◌, length};
ghost use Rattle.text.specs.Digits.{digit, Put, Wrote};
ghost use Rattle.figures.specs.Figures.{comma_text, grouped_text, count_text, whole_text, last_digits, decimals_text};
ghost use Rattle.figures.specs.Figures.{minus_text, figure_text, clock_text, time_text, part_text, pair_text, seconds_text};
ghost use Rattle.figures.specs.Figures.{long_text, duration_text, whole_duration_text};

use text::{put, put_decimal, put_text};

// Every text has room here.
const ROOM: usize = 192;

const MOST_PLACES: usize = 4;

// Ticks of a minute, an hour and a day.
const MINUTE: u64 = 600;

const HOUR: u64 = 36000;

const DAY: u64 = 864000;

// Each text is put together in a room of its own first, by the same three lines: a closure's contract would be longer than they are.

// A number with a comma between each three digits.
pub fn put_count(out: &mut [u8], at: usize, number: u64) -> usize
    ensures { Put out.old at (count_text number) result out.new }
{
    let mut text = [0u8; ROOM];
    let end = write_count(&mut text, 0, number);
    put_text(out, at, &text[..end])
}

// A number of so many decimal places, four at most, with commas in its whole part.
pub fn put_figure(out: &mut [u8], at: usize, is_negative: bool, size: u64, places: usize) -> usize
    ensures { Put out.old at (figure_text true is_negative size places) result out.new }
{
    put_any_figure(out, at, true, is_negative, size, places)
}

// The same without commas.
pub fn put_plain(out: &mut [u8], at: usize, is_negative: bool, size: u64, places: usize) -> usize
    ensures { Put out.old at (figure_text false is_negative size places) result out.new }
{
    put_any_figure(out, at, false, is_negative, size, places)
}

fn put_any_figure(
    out: &mut [u8],
    at: usize,
    has_commas: bool,
    is_negative: bool,
    size: u64,
    places: usize,
) -> usize
    ensures { Put out.old at (figure_text has_commas is_negative size places) result out.new }
{
    let mut text = [0u8; ROOM];
    let end = write_figure(&mut text, 0, has_commas, is_negative, size, places);
    put_text(out, at, &text[..end])
}

// A tick's day, counted from 1, and the time in it.
pub fn put_time(out: &mut [u8], at: usize, tick: u64) -> usize
    ensures { Put out.old at (time_text tick) result out.new }
{
    let mut text = [0u8; ROOM];
    let end = write_time(&mut text, tick);
    put_text(out, at, &text[..end])
}

// So many ticks in their two largest units, the rest cut.
pub fn put_duration(out: &mut [u8], at: usize, ticks: u64) -> usize
    ensures { Put out.old at (duration_text ticks) result out.new }
{
    let mut text = [0u8; ROOM];
    let end = write_duration(&mut text, ticks);
    put_text(out, at, &text[..end])
}

// So many ticks in all units, from the largest down to tenths of a second.
pub fn put_whole_duration(out: &mut [u8], at: usize, ticks: u64) -> usize
    ensures { Put out.old at (whole_duration_text ticks) result out.new }
{
    let mut text = [0u8; ROOM];
    let end = write_whole_duration(&mut text, ticks);
    put_text(out, at, &text[..end])
}

fn write_time(out: &mut [u8], tick: u64) -> usize
    requires { 192 ≤ length out.old }
    ensures wrote { Wrote out.old 0 (time_text tick) result out.new }
    ensures upper_bound { result ≤ 192 }
{
    let day = put_text(out, 0, b"Day\xC2\xA0");
    let clock = write_count(out, day, tick / DAY + 1);
    put_text(out, clock, &clock_of(tick))
}

fn write_duration(out: &mut [u8], ticks: u64) -> usize
    requires { 192 ≤ length out.old }
    ensures wrote { Wrote out.old 0 (duration_text ticks) result out.new }
    ensures upper_bound { result ≤ 192 }
{
    if ticks < MINUTE {
        return write_seconds(out, 0, ticks);
    }
    if ticks < HOUR {
        return write_pair(
            out,
            ticks / MINUTE,
            b"\xC2\xA0min ",
            ticks / 10 % 60,
            b"\xC2\xA0s",
        );
    }
    write_long(out, ticks)
}

// An hour and more.
fn write_long(out: &mut [u8], ticks: u64) -> usize
    requires { 192 ≤ length out.old }
    ensures wrote { Wrote out.old 0 (long_text ticks) result out.new }
    ensures upper_bound { result ≤ 192 }
{
    if ticks < DAY {
        return write_pair(
            out,
            ticks / HOUR,
            b"\xC2\xA0h ",
            ticks / MINUTE % 60,
            b"\xC2\xA0min",
        );
    }
    write_pair(
        out,
        ticks / DAY,
        b"\xC2\xA0d ",
        ticks / HOUR % 24,
        b"\xC2\xA0h",
    )
}

fn write_whole_duration(out: &mut [u8], ticks: u64) -> usize
    requires { 192 ≤ length out.old }
    ensures wrote { Wrote out.old 0 (whole_duration_text ticks) result out.new }
    ensures upper_bound { result ≤ 192 }
{
    let hours = write_part(out, 0, DAY <= ticks, ticks / DAY, b"\xC2\xA0d ");
    let minutes = write_part(out, hours, HOUR <= ticks, ticks / HOUR % 24, b"\xC2\xA0h ");
    let seconds = write_part(
        out,
        minutes,
        MINUTE <= ticks,
        ticks / MINUTE % 60,
        b"\xC2\xA0min ",
    );
    write_seconds(out, seconds, ticks % MINUTE)
}

// Two units, the larger first.
fn write_pair(out: &mut [u8], large: u64, unit: &[u8], small: u64, next: &[u8]) -> usize
    requires { (192 ≤ length out.old) × (length unit.now ≤ 6) × (length next.now ≤ 6) }
    ensures wrote { Wrote out.old 0 (pair_text large unit.now small next.now) result out.new }
    ensures upper_bound { result ≤ 192 }
{
    let rest = write_part(out, 0, true, large, unit);
    write_part(out, rest, true, small, next)
}

// A number and its unit, where it is told: a flag beside the number, as the parts of a text are told.
fn write_part(out: &mut [u8], at: usize, is_told: bool, number: u64, unit: &[u8]) -> usize
    requires { (at + 32 ≤ length out.old) × (length unit.now ≤ 6) }
    ensures wrote { Wrote out.old at (part_text is_told number unit.now) result out.new }
    ensures upper_bound { result ≤ at + 32 }
{
    if is_told {
        let next = write_count(out, at, number);
        return put_text(out, next, unit);
    }
    at
}

// Tenths of a second.
fn write_seconds(out: &mut [u8], at: usize, tenths: u64) -> usize
    requires { at + 40 ≤ length out.old }
    ensures wrote { Wrote out.old at (seconds_text tenths) result out.new }
    ensures upper_bound { result ≤ at + 40 }
{
    let unit = write_figure(out, at, true, false, tenths, 1);
    put_text(out, unit, b"\xC2\xA0s")
}

fn write_figure(
    out: &mut [u8],
    at: usize,
    has_commas: bool,
    is_negative: bool,
    size: u64,
    places: usize,
) -> usize
    requires { at + 32 ≤ length out.old }
    ensures wrote { Wrote out.old at (figure_text has_commas is_negative size places) result out.new }
    ensures upper_bound { result ≤ at + 32 }
{
    let held = places.min(MOST_PLACES);
    let whole = write_minus(out, at, is_negative & (size != 0));
    let point = write_whole(out, whole, has_commas, size / 10u64.pow(held as u32));
    write_decimals(out, point, size, held)
}

fn write_minus(out: &mut [u8], at: usize, is_told: bool) -> usize
    requires { at + 1 ≤ length out.old }
    ensures wrote { Wrote out.old at (minus_text is_told) result out.new }
    ensures upper_bound { result ≤ at + 1 }
{
    if is_told {
        return put(out, at, b'-');
    }
    at
}

fn write_whole(out: &mut [u8], at: usize, has_commas: bool, number: u64) -> usize
    requires { at + 26 ≤ length out.old }
    ensures wrote { Wrote out.old at (whole_text has_commas number) result out.new }
    ensures upper_bound { result ≤ at + 26 }
{
    if has_commas {
        return write_count(out, at, number);
    }
    put_decimal(out, at, number)
}

// A point and the last digits of a number; with no places nothing.
fn write_decimals(out: &mut [u8], at: usize, number: u64, places: usize) -> usize
    requires { (at + 5 ≤ length out.old) × (places ≤ 4) }
    ensures wrote { Wrote out.old at (decimals_text places number) result out.new }
    ensures upper_bound { result ≤ at + 5 }
{
    if places == 0 {
        return at;
    }
    let digits = last_digits(number);
    let next = put(out, at, b'.');
    put_text(out, next, &digits[MOST_PLACES - places..])
}

fn write_count(out: &mut [u8], at: usize, number: u64) -> usize
    requires { at + 26 ≤ length out.old }
    ensures wrote { Wrote out.old at (count_text number) result out.new }
    ensures upper_bound { result ≤ at + 26 }
{
    let mut digits = [0u8; 20];
    let count = put_decimal(&mut digits, 0, number);
    write_grouped(out, at, &digits[..count])
}

fn write_grouped(out: &mut [u8], at: usize, digits: &[u8]) -> usize
    requires { at + length (grouped_text digits.now) ≤ length out.old }
    ensures { Wrote out.old at (grouped_text digits.now) result out.new }
{
    let mut next = at;
    for (i, digit) in digits.iter().enumerate() {
        let comma = put(out, next, *digit);
        next = write_comma(out, comma, digits.len() - (i + 1));
    }
    next
}

// A comma stands before each three of the digits that are left.
fn write_comma(out: &mut [u8], at: usize, left: usize) -> usize
    requires { at + length (comma_text left) ≤ length out.old }
    ensures { Wrote out.old at (comma_text left) result out.new }
{
    if (0 < left) & (left % 3 == 0) {
        return put(out, at, b',');
    }
    at
}

// The time of day: a comma, hours, minutes, seconds and tenths.
fn clock_of(tick: u64) -> [u8; 12]
    ensures { result ≡ clock_text tick }
{
    let hours = tick / HOUR % 24;
    let minutes = tick / MINUTE % 60;
    let seconds = tick / 10 % 60;
    [
        b',',
        b' ',
        digit_of(hours / 10),
        digit_of(hours),
        b':',
        digit_of(minutes / 10),
        digit_of(minutes),
        b':',
        digit_of(seconds / 10),
        digit_of(seconds),
        b'.',
        digit_of(tick),
    ]
}

fn last_digits(number: u64) -> [u8; 4]
    ensures { result ≡ last_digits number }
{
    [
        digit_of(number / 1000),
        digit_of(number / 100),
        digit_of(number / 10),
        digit_of(number),
    ]
}

fn digit_of(number: u64) -> u8
    ensures { result ≡ digit number }
{
    b'0' + ((number % 10) as u8)
}
