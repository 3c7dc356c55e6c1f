// A line for each event of a tick, put into a buffer from a place on; each function gives the place after. Lines that have no room there
// are not put at all, and the place stays.
#![tactic(auto)]

ghost use Rattle.std.specs.Prelude.{◌≡◌, ◌+◌, ◌≤◌, length};
ghost use Rattle.text.specs.Digits.{Put, Wrote};
ghost use Rattle.eventlines.specs.EventLines.{line_of, lines_of};

use text::{LF, SPACE, decimal_length, has_room, put, put_byte, put_decimal};

// The lines of one tick take no more: eight, of 20 digits, a space, two digits and an end.
pub const ALL_LINES: usize = 192;

// The line of one event; 0 is none, as in the events of a tick.
pub fn put_event(out: &mut [u8], at: usize, tick: u64, event: u8) -> usize
    ensures { Put out.old at (line_of tick event) result out.new }
{
    if has_room(out.len(), at, line_length(tick, event)) {
        return write_event(out, at, tick, event);
    }
    at
}

// The lines of a tick's events, in their order.
pub fn put_events(out: &mut [u8], at: usize, tick: u64, events: [u8; 8]) -> usize
    ensures { Put out.old at (lines_of tick events) result out.new }
{
    if has_room(out.len(), at, lines_length(tick, events)) {
        return write_events(out, at, tick, events);
    }
    at
}

fn line_length(tick: u64, event: u8) -> usize
    ensures { (result ≡ length (line_of tick event)) × (result ≤ 24) }
{
    if event == 0 {
        return 0;
    }
    decimal_length(tick) + 4
}

fn lines_length(tick: u64, events: [u8; 8]) -> usize
    ensures { result ≡ length (lines_of tick events) }
{
    let mut all = 0;
    for event in events {
        all += line_length(tick, event);
    }
    all
}

fn write_events(out: &mut [u8], at: usize, tick: u64, events: [u8; 8]) -> usize
    requires { at + length (lines_of tick events) ≤ length out.old }
    ensures { Wrote out.old at (lines_of tick events) result out.new }
{
    let mut next = at;
    for event in events {
        next = write_event(out, next, tick, event);
    }
    next
}

fn write_event(out: &mut [u8], at: usize, tick: u64, event: u8) -> usize
    requires { at + length (line_of tick event) ≤ length out.old }
    ensures { Wrote out.old at (line_of tick event) result out.new }
{
    if event == 0 {
        return at;
    }
    let space = put_decimal(out, at, tick);
    let number = put(out, space, SPACE);
    let end = put_byte(out, number, event);
    put(out, end, LF)
}
