// The bench console: calls of the board as lines on standard input, an answer line for each on standard output.
#![tactic(auto)]

mod calls;
mod lines;
mod turns;

use crate::calls::{Call, MOST_CELLS, MOST_ROOM, call_of, store_length};
use crate::turns::answered;
use board::Board;
use std::io::{IsTerminal, Read, Write};
use streams::{Got, Waiting, read, tell, tell_failure, with_room, written};
use text::{LF, appended, line_end, without_cr};

// Of what is read at once, and of the answers that wait.
const BLOCK: usize = 65536;

// Of a line that stands in two blocks.
const LINE: usize = 4096;

// Answers are written before fewer bytes than this are free: the longest has 1,819.
const ANSWER_ROOM: usize = 2048;

// The end that the last line is given where it lacks its own. Its CR goes with its LF, so one before it is a byte of the line.
const LAST_END: [u8; 2] = *b"\r\n";

// How long the console's store is before the first `store`: all zeros.
const STORE: usize = 512;

// What the console holds from one line to the next: the board, the store, which is so long, and so many bytes of a line that goes on.
#[derive(Drop)]
struct Bench {
    board: Board,
    store: [u8; MOST_ROOM],
    length: usize,
    line: [u8; LINE],
    held: usize,
}

// Answers standard input on standard output until the input ends or cannot be read, or an answer cannot be written.
// Before the first start there is a board that was started with 0 cells.
// A proved loop has to end, and nothing says that the input does: no run uses up so many turns.
pub fn serve<I: Read + IsTerminal, O: Write, M: Write>(
    name: &[u8],
    input: &mut I,
    output: &mut O,
    messages: &mut M,
) {
    let mut block = [0u8; BLOCK];
    let mut out = [0u8; BLOCK];
    let mut bench = Bench {
        board: Board::start(0, 0).board,
        store: [0; MOST_ROOM],
        length: STORE,
        line: [0; LINE],
        held: 0,
    };
    let prompts = input.is_terminal();
    let mut is_written = true;
    let mut got = block_read(true, prompts, input, messages, &mut block);
    for _ in 0..u64::MAX {
        if got.count == 0 {
            break;
        }
        let part = &block[..got.count.min(BLOCK)];
        is_written = bench.answer_block(part, output, &mut out);
        bench.carry(part);
        got = block_read(is_written, prompts, input, messages, &mut block);
    }
    // Of a line whose read failed no call is made.
    let is_ended = !got.is_well || bench.answer_block(&LAST_END, output, &mut out);
    tell_failure(messages, name, got.is_well, is_written & is_ended);
}

// One read, where there is to be one.
fn block_read<I: Read, M: Write>(
    goes_on: bool,
    prompts: bool,
    input: &mut I,
    messages: &mut M,
    block: &mut [u8],
) -> Got {
    if prompts & goes_on {
        tell(messages, b"> ");
    }
    read(goes_on, input, block)
}

impl Bench {
    // Every line that the block ends, until an answer cannot be written: whether every answer is written.
    fn answer_block<O: Write>(&mut self, block: &[u8], output: &mut O, out: &mut [u8]) -> bool {
        let mut request = [0u8; MOST_ROOM];
        let mut voltages = [0u16; MOST_CELLS];
        let mut said = Waiting {
            count: 0,
            is_well: true,
        };
        // In a local until the block is done: of a field each line would be answered with a copy more.
        let mut board = self.board;
        let mut from = 0;
        let mut end = line_end(block, from);
        // By the place of the next LF.
        while end < block.len() && said.is_well {
            let call = self.ended_call(&block[from..end], &mut request, &mut voltages);
            from = end + 1;
            end = line_end(block, from);
            self.length = store_length(call, self.length).min(MOST_ROOM);
            let turn = answered(
                board,
                call,
                &request,
                &voltages,
                &mut self.store[..self.length],
                out,
                said.count,
            );
            board = turn.board;
            said = with_room(output, out, turn.said, ANSWER_ROOM);
        }
        self.board = board;
        written(output, out, said)
    }

    // The call of a line whose last piece this is. A line that stands whole in the block is not copied.
    fn ended_call(&mut self, piece: &[u8], request: &mut [u8], voltages: &mut [u16]) -> Call {
        if self.held == 0 {
            return whole_call(piece, request, voltages);
        }
        let length = appended(&mut self.line, self.held, piece).min(LINE);
        self.held = 0;
        whole_call(&self.line[..length], request, voltages)
    }

    // What a block leaves of an unfinished line is carried over.
    fn carry(&mut self, block: &[u8]) {
        self.held = match block.iter().rposition(|byte| *byte == LF) {
            Some(end) => appended(&mut self.line, 0, &block[end + 1..]),
            None => appended(&mut self.line, self.held, block),
        };
    }
}

fn whole_call(line: &[u8], request: &mut [u8], voltages: &mut [u16]) -> Call {
    let length = without_cr(line);
    call_of(&line[..length], request, voltages)
}
