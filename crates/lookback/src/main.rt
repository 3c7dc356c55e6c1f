// The plain engine beside the board: how many ticks of a recording on standard input, from the first on and up to 600, leave the same
// latched by both.
#![tactic(auto)]

use board::Board;
use std::io::Write;
use streams::{put, put_number, read_full, tell_failure};

const MOST_TICKS: usize = 600;

const RECORD: usize = 48;

const OPENING: usize = 4;

fn main(rt: HostRuntime) {
    let mut input = rt.stdin();
    let mut opening = [0u8; OPENING];
    let first = read_full(true, &mut input, &mut opening);
    let mut records = [0u8; MOST_TICKS * RECORD];
    let rest = read_full(first.is_well, &mut input, &mut records);
    let is_read = rest.is_well;
    let mut is_written = true;
    if is_read {
        let opened = recording::open(&opening[..first.count]);
        let ticks = ticks_alike(opened.board, &records[..rest.count]);
        is_written = put_alike(&mut rt.stdout(), ticks);
    }
    tell_failure(&mut rt.stderr(), b"lookback", is_read, is_written);
}

fn put_alike<W: Write>(output: &mut W, ticks: usize) -> bool {
    let is_counted = put_number(true, output, ticks as u64);
    put(is_counted, output, b" ticks alike\n")
}

// Both have the board's settings, which no recording writes.
fn ticks_alike(start: Board, records: &[u8]) -> usize {
    let mut board = start;
    let mut rest = records;
    for ticks in 0..MOST_TICKS {
        if rest.len() < RECORD {
            return ticks;
        }
        let ran = recording::run(board, &rest[..RECORD], 1);
        board = ran.board;
        let plain = engine::latched(board.pack.settings, records, board.pack.cells, ticks + 1);
        if ran.outcome.is_err() || plain != board.pack.guard.latched {
            return ticks;
        }
        rest = &rest[RECORD..];
    }
    MOST_TICKS
}
