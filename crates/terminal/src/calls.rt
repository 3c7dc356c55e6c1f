// A line into the call that it asks for.
ghost use Rattle.std.specs.Prelude.{◌≤◌, ◌<◌, IfSome, length};

use readings::Readings;
use text::{Figure, bytes, is_last, next_word, number, numbers, signed_number, word_end};

const LONGEST_LINE: usize = 4000;

// Of a request, an offer or an area; a store may be as long as any buffer.
const MOST_BYTES: usize = 300;

pub(crate) const MOST_CELLS: usize = 32;

pub(crate) const MOST_ROOM: usize = 600;

pub(crate) const MOST_REGISTERS: usize = 40;

const COMMENT: u8 = b'#';

// What a line asks for; the bytes and the cells stand beside it, `count` of them.
#[derive(Clone, Copy)]
pub(crate) enum Call {
    Nothing,
    Wrong,
    Start { cells: u8, per_km: u16 },
    Tick { readings: Readings, count: usize },
    Frame { room: usize, count: usize },
    Offer { count: usize },
    Fetch { room: usize },
    Save { length: usize },
    Load { count: usize },
    Cabinet { length: usize },
    Handover,
    Record { number: u32, length: usize },
    Store { length: usize, count: usize },
    Keep,
    Recall { edition: u32 },
    Tidy,
    Crc(u16),
    Register(u16),
}

// What a line, without its end, asks for. A comment and a line of spaces alone ask for nothing, however long.
pub(crate) fn call_of(line: &[u8], request: &mut [u8], voltages: &mut [u16]) -> Call {
    let at = next_word(line, 0);
    if line.len() <= at || line[0] == COMMENT {
        return Call::Nothing;
    }
    if LONGEST_LINE < line.len() {
        return Call::Wrong;
    }
    named_call(line, at, request, voltages).unwrap_or(Call::Wrong)
}

// The call that the first word names; none where there is no such call, or the words after the name are wrong.
fn named_call(line: &[u8], at: usize, request: &mut [u8], voltages: &mut [u16]) -> Option<Call>
    requires { at ≤ length line.now }
{
    let from = word_end(line, at);
    match &line[at..from] {
        b"tick" => tick_call(line, from, voltages),
        b"frame" => frame_call(line, from, request),
        b"offer" => offer_call(line, from, request),
        b"fetch" => fetch_call(line, from),
        b"start" => start_call(line, from),
        b"handover" => handover_call(line, from),
        b"save" => save_call(line, from),
        b"load" => load_call(line, from, request),
        b"cabinet" => cabinet_call(line, from),
        b"store" => store_call(line, from, request),
        b"keep" => lone_call(line, from, Call::Keep),
        b"recall" => recall_call(line, from),
        b"tidy" => lone_call(line, from, Call::Tidy),
        b"crc" => crc_call(line, from, request),
        b"register" => register_call(line, from),
        _ => None,
    }
}

fn start_call(line: &[u8], from: usize) -> Option<Call> {
    let cells = number(line, from, 255)?;
    let per_km = last_number(line, cells.next, 65535)?;
    Some(Call::Start {
        cells: cells.value as u8,
        per_km: per_km as u16,
    })
}

fn tick_call(line: &[u8], from: usize, voltages: &mut [u16]) -> Option<Call> {
    let current = signed_number(line, from, 2147483647)?;
    let internal = signed_number(line, current.next, 32767)?;
    let external1 = signed_number(line, internal.next, 32767)?;
    let external2 = signed_number(line, external1.next, 32767)?;
    let pulses = number(line, external2.next, 65535)?;
    let charger = number(line, pulses.next, 1)?;
    let ignition = number(line, charger.next, 1)?;
    let count = numbers(line, ignition.next, voltages)?;
    let readings = Readings {
        current: lowered_32(current.value),
        internal: lowered_16(internal.value),
        external1: lowered_16(external1.value),
        external2: lowered_16(external2.value),
        pulses: pulses.value as u16,
        charger: charger.value == 1,
        ignition: ignition.value == 1,
    };
    Some(Call::Tick { readings, count })
}

fn frame_call(line: &[u8], from: usize, request: &mut [u8]) -> Option<Call> {
    let Figure { value, next } = number(line, from, MOST_ROOM as u32)?;
    let count = request_bytes(line, next, request)?;
    let room = value as usize;
    Some(Call::Frame { room, count })
}

fn offer_call(line: &[u8], from: usize, request: &mut [u8]) -> Option<Call> {
    let count = request_bytes(line, from, request)?;
    Some(Call::Offer { count })
}

fn fetch_call(line: &[u8], from: usize) -> Option<Call> {
    let room = last_number(line, from, MOST_ROOM as u32)? as usize;
    Some(Call::Fetch { room })
}

fn save_call(line: &[u8], from: usize) -> Option<Call> {
    let length = last_number(line, from, MOST_ROOM as u32)? as usize;
    Some(Call::Save { length })
}

fn cabinet_call(line: &[u8], from: usize) -> Option<Call> {
    let length = last_number(line, from, MOST_REGISTERS as u32)? as usize;
    Some(Call::Cabinet { length })
}

fn load_call(line: &[u8], from: usize, request: &mut [u8]) -> Option<Call> {
    let count = request_bytes(line, from, request)?;
    Some(Call::Load { count })
}

// Alone, or with the desk's pack number and the length of its record.
fn handover_call(line: &[u8], from: usize) -> Option<Call> {
    if is_last(line, from) {
        return Some(Call::Handover);
    }
    let pack = number(line, from, 4294967295)?;
    let length = last_number(line, pack.next, MOST_ROOM as u32)? as usize;
    let number = pack.value as u32;
    Some(Call::Record { number, length })
}

fn crc_call(line: &[u8], from: usize, request: &mut [u8]) -> Option<Call> {
    let count = request_bytes(line, from, request)?;
    let length = count.min(request.len());
    Some(Call::Crc(crc::crc(&request[..length])))
}

fn register_call(line: &[u8], from: usize) -> Option<Call> {
    let at = last_number(line, from, 65535)?;
    Some(Call::Register(at as u16))
}

// A length, and no more bytes than it says.
fn store_call(line: &[u8], from: usize, request: &mut [u8]) -> Option<Call> {
    let Figure { value, next } = number(line, from, MOST_ROOM as u32)?;
    let length = value as usize;
    let room = length.min(request.len());
    let count = bytes(line, next, &mut request[..room])?;
    Some(Call::Store { length, count })
}

fn recall_call(line: &[u8], from: usize) -> Option<Call> {
    let edition = last_number(line, from, 4294967295)? as u32;
    Some(Call::Recall { edition })
}

// A word that stands alone.
fn lone_call(line: &[u8], from: usize, call: Call) -> Option<Call> {
    is_last(line, from).then_some(call)
}

// How long the console's store is after a call, where it was so long before it.
pub(crate) fn store_length(call: Call, length: usize) -> usize {
    match call {
        Call::Store { length, count: _ } => length.min(MOST_ROOM),
        _ => length,
    }
}

// Bytes of a request, an offer or an area.
fn request_bytes(line: &[u8], from: usize, request: &mut [u8]) -> Option<usize> {
    let room = MOST_BYTES.min(request.len());
    bytes(line, from, &mut request[..room])
}

// The next word, which has to be the last, as a number from 0 to `most`.
fn last_number(line: &[u8], from: usize, most: u32) -> Option<u64>
    ensures { IfSome result (λ n. n ≤ most) }
{
    let Figure { value, next } = number(line, from, most)?;
    is_last(line, next).then_some(value)
}

// The temperature that `signed_number` told as 32768 more.
fn lowered_16(value: u64) -> i16
    requires { value < 65536 }
{
    (value as i32 + i16::MIN as i32) as i16
}

// The current that it told as 2147483648 more.
fn lowered_32(value: u64) -> i32
    requires { value < 4294967296 }
{
    (value as i64 + i32::MIN as i64) as i32
}
