// Records of the desk on standard input; their count and exact totals on standard output, a line each, and how it went on standard error.
#![tactic(auto)]

use desk::RECORD;
use refusals::Refusal;
use std::io::{Read, Write};
use streams::{Waiting, read_records, tell, tell_failure, tell_number, written};
use totallines::{ALL_LINES, put_lines};
use totals::Billed;

// Whole records, so that none stands in two blocks.
const BLOCK: usize = 2048 * RECORD;

fn main(rt: HostRuntime) {
    let mut messages = rt.stderr();
    let Some(billed) = all_billed(&mut rt.stdin()) else {
        tell_failure(&mut messages, b"bill", false, true);
        return;
    };
    if are_told(&mut rt.stdout(), billed) {
        tell_of(&mut messages, billed);
    } else {
        tell_failure(&mut messages, b"bill", true, false);
    }
}

// What the records come to, up to their end or to the one that is refused; nothing where a read failed before that. A proved loop has to
// end, and nothing says that the input does: no run uses up so many turns.
fn all_billed<R: Read>(input: &mut R) -> Option<Billed> {
    let mut block = [0u8; BLOCK];
    let mut billed = Billed::none();
    let mut is_read = true;
    for _ in 0..u64::MAX {
        let got = read_records(is_read, input, &mut block, RECORD);
        is_read = got.is_well;
        if got.count == 0 {
            break;
        }
        billed = billed.followed_by(&block[..got.count]);
        if billed.outcome.is_err() {
            return Some(billed);
        }
    }
    is_read.then_some(billed)
}

// Whether the lines are written.
fn are_told<W: Write>(output: &mut W, billed: Billed) -> bool {
    let mut out = [0u8; ALL_LINES];
    let count = put_lines(&mut out, 0, billed);
    let waiting = Waiting {
        count,
        is_well: true,
    };
    written(output, &out, waiting)
}

// How many records, and the number with its meaning where there is one.
fn tell_of<M: Write>(messages: &mut M, billed: Billed) {
    tell(messages, b"bill: ");
    tell_number(messages, billed.totals.count);
    tell(messages, b" records");
    if let Err(refusal) = billed.outcome {
        tell_refusal(messages, refusal);
    }
    tell(messages, b"\n");
}

// Records are refused for one of two.
fn tell_refusal<M: Write>(messages: &mut M, refusal: Refusal) {
    tell(messages, b", ");
    tell_number(messages, refusal.number() as u64);
    match refusal {
        Refusal::CutBill => tell(messages, b": the last record is cut"),
        _ => tell(messages, b": a total is past 64 bits"),
    }
}
