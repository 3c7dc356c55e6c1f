// What is said of a recording on standard error: how far it is, and how it went.
use crate::{Played, Reading};
use recording::Ran;
use refusals::Refusal;
use std::io::{IsTerminal, Write};
use streams::{tell, tell_number};

// Where standard error is a terminal; now and then.
pub fn put_progress<M: Write + IsTerminal>(messages: &mut M, ticks: usize, turns: u64) {
    if turns % 64 == 0 {
        put_how_far(messages, ticks);
    }
}

fn put_how_far<M: Write + IsTerminal>(messages: &mut M, ticks: usize) {
    if messages.is_terminal() {
        put_ticks(messages, ticks);
        tell(messages, b"\r");
    }
}

fn put_ticks<M: Write>(messages: &mut M, ticks: usize) {
    tell_number(messages, ticks as u64);
    tell(messages, b" ticks");
}

// NAME: N ticks, and what failed, or the number with its meaning where there is one.
pub fn tell_of<M: Write>(messages: &mut M, name: &[u8], reading: Reading, is_written: bool) {
    tell(messages, name);
    tell(messages, b": ");
    put_ticks(messages, reading.played.map_or(0, |ran| ran.accepted));
    if !is_written {
        tell(messages, b", standard output cannot be written");
    } else if reading.is_unread() {
        tell(messages, b", the recording cannot be read");
    } else {
        put_outcome(messages, reading.played);
    }
    tell(messages, b"\n");
}

fn put_outcome<M: Write>(messages: &mut M, played: Played) {
    match played {
        Err(refusal) => {
            put_number(messages, refusal);
            put_opening(messages, refusal);
        }
        Ok(
            Ran {
                outcome: Err(refusal),
                ..
            },
        ) => {
            put_number(messages, refusal);
            put_end(messages, refusal);
        }
        Ok(_) => {}
    }
}

fn put_number<M: Write>(messages: &mut M, refusal: Refusal) {
    tell(messages, b", ");
    tell_number(messages, refusal.number() as u64);
}

// An opening is refused for one of three, and a run for one of two.
fn put_opening<M: Write>(messages: &mut M, refusal: Refusal) {
    match refusal {
        Refusal::NoBoard => tell(messages, b": a wrong cell count"),
        Refusal::BadRecord => tell(messages, b": a bad opening"),
        _ => tell(messages, b": the opening is cut"),
    }
}

fn put_end<M: Write>(messages: &mut M, refusal: Refusal) {
    match refusal {
        Refusal::BadRecord => tell(messages, b": a bad record"),
        _ => tell(messages, b": the last record is cut"),
    }
}
