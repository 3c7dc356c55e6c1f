// The board at one end of a raw serial line: bytes go in as they come, and what goes out is each frame's reply and nothing else.
#![tactic(auto)]

ghost use Rattle.std.specs.Prelude.{◌≡◌};
ghost use Rattle.port.specs.Port.{Answers, served_of};

use board::Board;
use std::io::Write;
use streams::put;

// For the longest reply.
const ROOM: usize = 259;

// How many bytes were taken, how many of the buffer are a reply, and the board after it.
#[derive(Clone, Copy)]
pub struct Turn {
    pub taken: usize,
    pub length: usize,
    pub board: Board,
}

// The board after what came, and whether every reply is written. No Result: the board has heard it either way.
#[derive(Clone, Copy)]
pub struct Listened {
    pub board: Board,
    pub is_written: bool,
}

// Every byte is taken, and each frame's reply is written as soon as the frame is complete; after one that cannot be written none is.
#[tactic(auto, using(crate::proofs::Turns::begun, crate::proofs::Turns::none_left, crate::proofs::Turns::out_of_turns))]
pub fn serve<W: Write>(start: Board, bytes: &[u8], output: &mut W) -> Listened
    ensures { result.board ≡ (served_of start bytes.now).board }
{
    let mut board = start;
    let mut is_written = true;
    let mut rest = bytes;
    let mut reply = [0u8; ROOM];
    for turns in 0..=bytes.len() {
        if rest.is_empty() {
            break;
        }
        let turn = answer(board, rest, &mut reply);
        is_written = put(is_written, output, &reply[..turn.length.min(ROOM)]);
        board = turn.board;
        rest = &rest[turn.taken.min(rest.len())..];
    }
    Listened { board, is_written }
}

// Bytes are offered, and the frame that is then held, if there is one, is fetched.
pub fn answer(board: Board, bytes: &[u8], reply: &mut [u8]) -> Turn
    ensures { Answers board bytes.now reply.old result reply.new }
{
    let heard = board.offer(bytes);
    let answer = heard.board.fetch(reply);
    Turn {
        taken: heard.taken,
        length: answers::length_in(reply),
        board: answer.board,
    }
}
