// The board for firmware in C: every call of the board and what it shows, under plain names. The board goes in and comes back by value; what
// was lent is a slice. `embedded_c` exports these functions; firmware/slatecauseway.h has the same names, and verbs over them that take the
// board by its address.
#![tactic(auto)]

ghost use Rattle.std.specs.Prelude.{◌≡◌, length};
ghost use Rattle.board.specs.Promises.{ShowsCharge, ShowsDischarge, ShowsDecision, ShowsBalancing};
ghost use Rattle.board.specs.Start.{start_of};
ghost use Rattle.board.specs.Calls.{tick, frame, offer, fetch, handover, save, load, cabinet, recall, answer_to, hearing};
ghost use Rattle.answers.specs.Length.{length_in};
ghost use Rattle.answers.specs.Registers.{shown_at};
ghost use Rattle.embedded.specs.Told.{told_by, told_of, heard_of, Tells, Kept, Tidied, word_of};

use board::{Answer, Board};
use readings::Readings;
use refusals::{Outcome, number_of, register_of};

// What a call tells: its number, the register of a 44, what else it gives (how many bytes an offer took, the edition of a keep), the board.
#[repr(C)]
#[derive(Clone, Copy)]
pub struct Told {
    pub number: u8,
    pub which: u16,
    pub more: usize,
    pub board: Board,
}

// A register's value, where there is one: C has no Option.
#[repr(C)]
#[derive(Clone, Copy)]
pub struct Word {
    pub value: u16,
    pub is: bool,
}

// ---- the calls

pub fn slatecauseway_start(cells: u8, per_km: u16) -> Told
    ensures { result ≡ told_of (start_of cells per_km) }
{
    answered(Board::start(cells, per_km))
}

pub fn slatecauseway_tick(board: Board, cells: &[u16], readings: Readings) -> Told
    ensures { result ≡ told_of (answer_to board (tick cells.now readings)) }
{
    answered(board.tick(cells, readings))
}

pub fn slatecauseway_frame(board: Board, request: &[u8], reply: &mut [u8]) -> Told
    ensures { Tells board (frame request.now (length reply.old)) reply.old result reply.new }
{
    answered(board.frame(request, reply))
}

pub fn slatecauseway_offer(board: Board, bytes: &[u8]) -> Told
    ensures { result ≡ heard_of (hearing board (offer bytes.now)) }
{
    let heard = board.offer(bytes);
    let outcome = heard.outcome;
    put_together(outcome, heard.taken, heard.board)
}

pub fn slatecauseway_fetch(board: Board, reply: &mut [u8]) -> Told
    ensures { Tells board (fetch (length reply.old)) reply.old result reply.new }
{
    answered(board.fetch(reply))
}

pub fn slatecauseway_handover(board: Board, number: u32, bytes: &mut [u8]) -> Told
    ensures { Tells board (handover number (length bytes.old)) bytes.old result bytes.new }
{
    answered(board.handover(number, bytes))
}

pub fn slatecauseway_save(board: Board, area: &mut [u8]) -> Told
    ensures { Tells board (save (length area.old)) area.old result area.new }
{
    answered(board.save(area))
}

pub fn slatecauseway_load(board: Board, area: &[u8]) -> Told
    ensures { result ≡ told_of (answer_to board (load area.now)) }
{
    answered(board.load(area))
}

pub fn slatecauseway_cabinet(board: Board, slice: &mut [u16]) -> Told
    ensures { Tells board (cabinet (length slice.old)) slice.old result slice.new }
{
    answered(board.cabinet(slice))
}

pub fn slatecauseway_keep(board: Board, store: &mut [u8]) -> Told
    ensures { Kept board store.old result store.new }
{
    let stored = board.keep(store);
    let outcome = stored.outcome;
    put_together(outcome, stored.edition as usize, stored.board)
}

pub fn slatecauseway_recall(board: Board, store: &[u8], edition: u32) -> Told
    ensures { result ≡ told_of (answer_to board (recall store.now edition)) }
{
    answered(board.recall(store, edition))
}

// No call of the board: a store put in order. Its number.
pub fn slatecauseway_tidy(store: &mut [u8]) -> u8
    ensures { Tidied store.old result store.new }
{
    number_of(classes::tidy(store))
}

// ---- what is shown

pub fn slatecauseway_register(board: Board, at: u16) -> Word
    ensures { result ≡ word_of (shown_at board.pack board.hire at) }
{
    match board.register(at) {
        Some(value) => Word { value, is: true },
        None => Word {
            value: 0,
            is: false,
        },
    }
}

pub fn slatecauseway_charge_switch(board: Board) -> bool
    ensures { ShowsCharge board result }
{
    board.charge_switch()
}

pub fn slatecauseway_discharge_switch(board: Board) -> bool
    ensures { ShowsDischarge board result }
{
    board.discharge_switch()
}

pub fn slatecauseway_decision_bits(board: Board) -> u16
    ensures { ShowsDecision board result }
{
    board.decision_bits()
}

pub fn slatecauseway_balancing_bits(board: Board) -> u16
    ensures { ShowsBalancing board result }
{
    board.balancing_bits()
}

// How many bytes of a reply buffer are the reply.
pub fn slatecauseway_reply_length(reply: &[u8]) -> usize
    ensures { result ≡ length_in reply.now }
{
    answers::length_in(reply)
}

// ---- an answer, as it is told

fn answered(answer: Answer) -> Told
    ensures { result ≡ told_of answer }
{
    let outcome = answer.outcome;
    put_together(outcome, 0, answer.board)
}

fn put_together(outcome: Outcome, more: usize, board: Board) -> Told
    ensures { result ≡ told_by outcome more board }
{
    Told {
        number: number_of(outcome),
        which: register_of(outcome),
        more,
        board,
    }
}
