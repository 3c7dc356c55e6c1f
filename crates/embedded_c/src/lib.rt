// The exports for firmware in C: each hands its call on to the library and promises what that promises. What was lent is
// an address and a length there. firmware/slatecauseway.h has the same names.
#![tactic(auto)]

ghost use Rattle.std.specs.Prelude.{◌≡◌, length};
ghost use Rattle.board.specs.Promises.{ShowsCharge, ShowsDischarge, ShowsDecision, ShowsBalancing};
ghost use Rattle.board.specs.Start.{start_of};
ghost use Rattle.board.specs.Calls.{tick, frame, offer, fetch, handover, save, load, cabinet, recall, answer_to, hearing};
ghost use Rattle.answers.specs.Length.{length_in};
ghost use Rattle.answers.specs.Registers.{shown_at};
ghost use Rattle.embedded.specs.Told.{told_by, told_of, heard_of, Tells, Kept, Tidied, word_of};

use board::Board;
use embedded::{Told, Word};
use readings::Readings;

// ---- the calls

#[unsafe(no_mangle)]
pub extern "C" fn slatecauseway_start(cells: u8, per_km: u16) -> Told
    ensures { result ≡ told_of (start_of cells per_km) }
{
    embedded::slatecauseway_start(cells, per_km)
}

#[unsafe(no_mangle)]
pub extern "C" fn slatecauseway_tick(board: Board, cells: &[u16], readings: Readings) -> Told
    ensures { result ≡ told_of (answer_to board (tick cells.now readings)) }
{
    embedded::slatecauseway_tick(board, cells, readings)
}

#[unsafe(no_mangle)]
pub extern "C" fn slatecauseway_frame(board: Board, request: &[u8], reply: &mut [u8]) -> Told
    ensures { Tells board (frame request.now (length reply.old)) reply.old result reply.new }
{
    embedded::slatecauseway_frame(board, request, reply)
}

#[unsafe(no_mangle)]
pub extern "C" fn slatecauseway_offer(board: Board, bytes: &[u8]) -> Told
    ensures { result ≡ heard_of (hearing board (offer bytes.now)) }
{
    embedded::slatecauseway_offer(board, bytes)
}

#[unsafe(no_mangle)]
pub extern "C" fn slatecauseway_fetch(board: Board, reply: &mut [u8]) -> Told
    ensures { Tells board (fetch (length reply.old)) reply.old result reply.new }
{
    embedded::slatecauseway_fetch(board, reply)
}

#[unsafe(no_mangle)]
pub extern "C" fn slatecauseway_handover(board: Board, number: u32, bytes: &mut [u8]) -> Told
    ensures { Tells board (handover number (length bytes.old)) bytes.old result bytes.new }
{
    embedded::slatecauseway_handover(board, number, bytes)
}

#[unsafe(no_mangle)]
pub extern "C" fn slatecauseway_save(board: Board, area: &mut [u8]) -> Told
    ensures { Tells board (save (length area.old)) area.old result area.new }
{
    embedded::slatecauseway_save(board, area)
}

#[unsafe(no_mangle)]
pub extern "C" fn slatecauseway_load(board: Board, area: &[u8]) -> Told
    ensures { result ≡ told_of (answer_to board (load area.now)) }
{
    embedded::slatecauseway_load(board, area)
}

#[unsafe(no_mangle)]
pub extern "C" fn slatecauseway_cabinet(board: Board, slice: &mut [u16]) -> Told
    ensures { Tells board (cabinet (length slice.old)) slice.old result slice.new }
{
    embedded::slatecauseway_cabinet(board, slice)
}

#[unsafe(no_mangle)]
pub extern "C" fn slatecauseway_keep(board: Board, store: &mut [u8]) -> Told
    ensures { Kept board store.old result store.new }
{
    embedded::slatecauseway_keep(board, store)
}

#[unsafe(no_mangle)]
pub extern "C" fn slatecauseway_recall(board: Board, store: &[u8], edition: u32) -> Told
    ensures { result ≡ told_of (answer_to board (recall store.now edition)) }
{
    embedded::slatecauseway_recall(board, store, edition)
}

// No call of the board: a store put in order. Its number.
#[unsafe(no_mangle)]
pub extern "C" fn slatecauseway_tidy(store: &mut [u8]) -> u8
    ensures { Tidied store.old result store.new }
{
    embedded::slatecauseway_tidy(store)
}

// ---- what is shown

#[unsafe(no_mangle)]
pub extern "C" fn slatecauseway_register(board: Board, at: u16) -> Word
    ensures { result ≡ word_of (shown_at board.pack board.hire at) }
{
    embedded::slatecauseway_register(board, at)
}

#[unsafe(no_mangle)]
pub extern "C" fn slatecauseway_charge_switch(board: Board) -> bool
    ensures { ShowsCharge board result }
{
    embedded::slatecauseway_charge_switch(board)
}

#[unsafe(no_mangle)]
pub extern "C" fn slatecauseway_discharge_switch(board: Board) -> bool
    ensures { ShowsDischarge board result }
{
    embedded::slatecauseway_discharge_switch(board)
}

#[unsafe(no_mangle)]
pub extern "C" fn slatecauseway_decision_bits(board: Board) -> u16
    ensures { ShowsDecision board result }
{
    embedded::slatecauseway_decision_bits(board)
}

#[unsafe(no_mangle)]
pub extern "C" fn slatecauseway_balancing_bits(board: Board) -> u16
    ensures { ShowsBalancing board result }
{
    embedded::slatecauseway_balancing_bits(board)
}

// How many bytes of a reply buffer are the reply.
#[unsafe(no_mangle)]
pub extern "C" fn slatecauseway_reply_length(reply: &[u8]) -> usize
    ensures { result ≡ length_in reply.now }
{
    embedded::slatecauseway_reply_length(reply)
}
