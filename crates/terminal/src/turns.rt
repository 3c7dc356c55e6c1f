// A call that is made on the board, and its answer, put behind those that wait.
use crate::calls::{Call, MOST_REGISTERS, MOST_ROOM};
use crate::lines::{
    State, put_crc, put_heard, put_kept, put_mark, put_replied, put_saved, put_shown, put_slice,
    put_store, put_tidied, put_told,
};
use board::{Answer, Board, Heard, Stored};
use desk::RECORD;
use refusals::{Outcome, number_of, register_of};

// What a reply buffer, an area, a slice or a record holds before a call, so that what the call leaves alone shows.
const FILLING: u8 = 0x5A;

const SLICE_FILLING: u16 = 0x5A5A;

// The board after a line, and how many bytes of answers wait.
#[derive(Clone, Copy)]
pub(crate) struct Turn {
    pub board: Board,
    pub said: usize,
}

// A line that is no call of the board leaves it alone.
pub(crate) fn answered(
    board: Board,
    call: Call,
    request: &[u8],
    voltages: &[u16],
    store: &mut [u8],
    out: &mut [u8],
    said: usize,
) -> Turn {
    match call {
        Call::Nothing => after(board, said),
        Call::Wrong => after(board, put_mark(out, said, b'?')),
        Call::Start { cells, per_km } => told(Board::start(cells, per_km), out, said),
        Call::Tick { readings, count } => {
            let given = count.min(voltages.len());
            told(board.tick(&voltages[0..given], readings), out, said)
        }
        Call::Frame { room, count } => {
            let length = count.min(request.len());
            let mut reply = [FILLING; MOST_ROOM];
            let lent = room.min(MOST_ROOM);
            framed(board, &request[0..length], &mut reply[0..lent], out, said)
        }
        Call::Offer { count } => {
            let length = count.min(request.len());
            heard(board.offer(&request[0..length]), out, said)
        }
        Call::Fetch { room } => fetched(board, room, out, said),
        Call::Save { length } => saved(board, length, out, said),
        Call::Load { count } => {
            let length = count.min(request.len());
            told(board.load(&request[0..length]), out, said)
        }
        Call::Cabinet { length } => measured(board, length, out, said),
        Call::Handover => handed(board, out, said),
        Call::Record { number, length } => billed(board, number, length, out, said),
        Call::Store { length: _, count } => {
            let given = count.min(request.len());
            after(board, stocked(&request[0..given], store, out, said))
        }
        Call::Keep => stored(board.keep(store), store, out, said),
        Call::Recall { edition } => told(board.recall(store, edition), out, said),
        Call::Tidy => after(board, tidied(store, out, said)),
        Call::Crc(crc) => after(board, put_crc(out, said, crc)),
        Call::Register(at) => shown(board, at, out, said),
    }
}

fn after(board: Board, said: usize) -> Turn {
    Turn { board, said }
}

fn told(answer: Answer, out: &mut [u8], said: usize) -> Turn {
    let outcome = answer.outcome;
    let state = state_of(answer.board, outcome);
    after(answer.board, put_told(out, said, state))
}

// A frame, a fetch, a save, a cabinet's call, a handover and a register read the board in memory. Each has a function of its own, which copies
// it there for its own lines; in the match above every line would copy it.
fn framed(board: Board, request: &[u8], reply: &mut [u8], out: &mut [u8], said: usize) -> Turn {
    let answer = board.frame(request, reply);
    let outcome = answer.outcome;
    let state = state_of(answer.board, outcome);
    after(answer.board, put_replied(out, said, state, reply))
}

fn fetched(board: Board, room: usize, out: &mut [u8], said: usize) -> Turn {
    let mut reply = [FILLING; MOST_ROOM];
    let lent = room.min(MOST_ROOM);
    fetched_into(board, &mut reply[0..lent], out, said)
}

fn fetched_into(board: Board, reply: &mut [u8], out: &mut [u8], said: usize) -> Turn {
    let answer = board.fetch(reply);
    let outcome = answer.outcome;
    let state = state_of(answer.board, outcome);
    after(answer.board, put_replied(out, said, state, reply))
}

fn saved(board: Board, length: usize, out: &mut [u8], said: usize) -> Turn {
    let mut area = [FILLING; MOST_ROOM];
    let lent = length.min(MOST_ROOM);
    saved_into(board, &mut area[0..lent], out, said)
}

fn saved_into(board: Board, area: &mut [u8], out: &mut [u8], said: usize) -> Turn {
    let answer = board.save(area);
    let outcome = answer.outcome;
    let state = state_of(answer.board, outcome);
    after(answer.board, put_saved(out, said, state, area))
}

fn measured(board: Board, length: usize, out: &mut [u8], said: usize) -> Turn {
    let mut slice = [SLICE_FILLING; MOST_REGISTERS];
    let lent = length.min(MOST_REGISTERS);
    measured_into(board, &mut slice[0..lent], out, said)
}

fn measured_into(board: Board, slice: &mut [u16], out: &mut [u8], said: usize) -> Turn {
    let answer = board.cabinet(slice);
    let outcome = answer.outcome;
    let state = state_of(answer.board, outcome);
    after(answer.board, put_slice(out, said, state, slice))
}

// The desk's call with a record that is not shown.
fn handed(board: Board, out: &mut [u8], said: usize) -> Turn {
    let mut bytes = [FILLING; RECORD];
    told(board.handover(0, &mut bytes), out, said)
}

fn billed(board: Board, number: u32, length: usize, out: &mut [u8], said: usize) -> Turn {
    let mut bytes = [FILLING; MOST_ROOM];
    let lent = length.min(MOST_ROOM);
    billed_into(board, number, &mut bytes[0..lent], out, said)
}

fn billed_into(board: Board, number: u32, bytes: &mut [u8], out: &mut [u8], said: usize) -> Turn {
    let answer = board.handover(number, bytes);
    let outcome = answer.outcome;
    let state = state_of(answer.board, outcome);
    after(answer.board, put_saved(out, said, state, bytes))
}

fn stocked(bytes: &[u8], store: &mut [u8], out: &mut [u8], said: usize) -> usize {
    stock(bytes, store);
    put_store(out, said, store)
}

// The console's store becomes these bytes, and zeros up to its end.
fn stock(bytes: &[u8], store: &mut [u8]) {
    let count = bytes.len().min(store.len());
    store[..count].copy_from_slice(&bytes[..count]);
    store[count..].fill(0);
}

fn stored(stored: Stored, store: &[u8], out: &mut [u8], said: usize) -> Turn {
    let outcome = stored.outcome;
    let state = state_of(stored.board, outcome);
    after(
        stored.board,
        put_kept(out, said, state, stored.edition, store),
    )
}

fn tidied(store: &mut [u8], out: &mut [u8], said: usize) -> usize {
    let number = number_of(classes::tidy(store));
    put_tidied(out, said, number, store)
}

fn heard(heard: Heard, out: &mut [u8], said: usize) -> Turn {
    let outcome = heard.outcome;
    let state = state_of(heard.board, outcome);
    after(heard.board, put_heard(out, said, state, heard.taken))
}

fn shown(board: Board, at: u16, out: &mut [u8], said: usize) -> Turn {
    let register = board.register(at);
    after(board, put_shown(out, said, register))
}

// What is shown after a call.
fn state_of(board: Board, outcome: Outcome) -> State {
    State {
        number: number_of(outcome),
        register: register_of(outcome),
        charge: board.charge_switch(),
        discharge: board.discharge_switch(),
        need: board.decision_bits(),
        real: board.balancing_bits(),
    }
}
