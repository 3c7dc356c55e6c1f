// A board at one end of a raw serial line, after the recording that is named; bytes on standard input, replies on standard output.
#![tactic(auto)]

use board::Board;
use player::{BLOCK, Reading, next_block, on_from, put_progress};
use std::env::{Env, FillError};
use std::fs::File;
use std::io::{IsTerminal, Read, Write};
use std::rt::Files;
use streams::{read, tell, tell_failure};

// Of a read of the line.
const READ: usize = 4096;

const LONGEST_NAME: usize = 4096;

// With no recording: 8 cells, 2000 pulses per km, no tick yet.
fn main(rt: HostRuntime) {
    let mut input = rt.stdin();
    let mut output = rt.stdout();
    let mut messages = rt.stderr();
    if !is_given(&rt, 1) {
        let started = Board::start(8, 2000);
        listen(started.board, &mut input, &mut output, &mut messages);
    } else if !is_given(&rt, 2) {
        let reading = named_played(&rt, &mut messages);
        serve_after(reading, &mut input, &mut output, &mut messages);
    } else {
        tell(&mut messages, b"usage: line [RECORDING]\n");
    }
}

// Was the program started with such a word? Word 0 is its own name.
fn is_given<R: Env>(rt: &R, at: usize) -> bool {
    let mut start = [0u8; 1];
    match rt.arg(at, &mut start) {
        Ok(_) => true,
        Err(FillError::TooLong) => true,
        Err(FillError::NotPresent) => false,
    }
}

// What has been played of the recording that word 1 names.
fn named_played<R: Env + Files, M: Write + IsTerminal>(rt: &R, messages: &mut M) -> Reading {
    match named(rt) {
        Some(mut file) => all_played(&mut file, messages),
        None => player::unread(),
    }
}

// The file that word 1 names.
fn named<R: Env + Files>(rt: &R) -> Option<R::File> {
    let mut name = [0u8; LONGEST_NAME];
    let length = rt.arg(1, &mut name).ok()?;
    let path = std::str::from_utf8(&name[..length]).ok()?;
    File::open(rt, path).ok()
}

// A recording that is refused is told of, and served as far as it went; one that cannot be read, or whose opening is bad, has no board to
// serve.
fn serve_after<I: Read, O: Write, M: Write>(
    reading: Reading,
    input: &mut I,
    output: &mut O,
    messages: &mut M,
) {
    match reading.played {
        Ok(ran) if !reading.is_unread() => {
            if ran.outcome.is_err() {
                player::tell_of(messages, b"line", reading, true);
            }
            listen(ran.board, input, output, messages);
        }
        _ => player::tell_of(messages, b"line", reading, true),
    }
}

// Until the recording ends, is refused or cannot be read; no run uses up so many turns.
fn all_played<R: Read, M: Write + IsTerminal>(file: &mut R, messages: &mut M) -> Reading {
    let mut block = [0u8; BLOCK];
    let mut reading = player::opening(file);
    for turn in 1..u64::MAX {
        let got = next_block(reading.is_read, file, &mut block);
        reading.is_read = got.is_well;
        let Ok(ran) = reading.played else {
            break;
        };
        if got.count == 0 || ran.outcome.is_err() {
            break;
        }
        let next = on_from(ran, &block[..got.count], usize::MAX);
        reading.played = Ok(next);
        put_progress(messages, next.accepted, turn);
    }
    reading
}

// Until the line ends, cannot be read, or a reply cannot be written. A proved loop has to end, and nothing says that the input does: no run
// uses up so many turns.
fn listen<I: Read, O: Write, M: Write>(
    start: Board,
    input: &mut I,
    output: &mut O,
    messages: &mut M,
) {
    let mut board = start;
    let mut is_read = true;
    let mut is_written = true;
    let mut block = [0u8; READ];
    for _ in 0..u64::MAX {
        let got = read(is_written, input, &mut block);
        is_read = got.is_well;
        if got.count == 0 {
            break;
        }
        let next = port::serve(board, &block[..got.count], output);
        board = next.board;
        is_written = next.is_written;
    }
    tell_failure(messages, b"line", is_read, is_written);
}
