// Answers as text, put into the output buffer from a place on; each function gives the place after it. The room is seen
// to before each answer.
use text::{LF, SPACE, put, put_byte, put_bytes, put_decimal, put_word, without_zeros};

// What stands after a call: its number, the register of a 44, the switches, and registers 51 and 52.
#[derive(Clone, Copy)]
pub(crate) struct State {
    pub number: u8,
    pub register: u16,
    pub charge: bool,
    pub discharge: bool,
    pub need: u16,
    pub real: u16,
}

pub(crate) fn put_told(out: &mut [u8], at: usize, state: State) -> usize {
    let next = put_state(out, at, state);
    put_end(out, next)
}

pub(crate) fn put_replied(out: &mut [u8], at: usize, state: State, reply: &[u8]) -> usize {
    let next = put_state(out, at, state);
    let bytes = put_reply(out, next, reply);
    put_end(out, bytes)
}

// Every byte of the area or the record.
pub(crate) fn put_saved(out: &mut [u8], at: usize, state: State, area: &[u8]) -> usize {
    let next = put_state(out, at, state);
    let bytes = put_bytes(out, next, area);
    put_end(out, bytes)
}

// EDITION BYTE.. +Z
pub(crate) fn put_kept(
    out: &mut [u8],
    at: usize,
    state: State,
    edition: u32,
    store: &[u8],
) -> usize {
    let mut next = put_state(out, at, state);
    next = put(out, next, SPACE);
    next = put_decimal(out, next, u64::from(edition));
    next = put_reply(out, next, store);
    put_end(out, next)
}

// NUMBER BYTE.. +Z
pub(crate) fn put_tidied(out: &mut [u8], at: usize, number: u8, store: &[u8]) -> usize {
    let mut next = put_decimal(out, at, u64::from(number));
    next = put_reply(out, next, store);
    put_end(out, next)
}

// BYTE.. +Z
pub(crate) fn put_store(out: &mut [u8], at: usize, store: &[u8]) -> usize {
    let said = without_zeros(store);
    let bytes = put_row(out, at, &store[0..said]);
    let zeros = put_zeros(out, bytes, store.len() - said);
    put_end(out, zeros)
}

// BYTE.. with a space behind each.
fn put_row(out: &mut [u8], at: usize, bytes: &[u8]) -> usize {
    let [first, rest @ ..] = bytes else {
        return at;
    };
    let mut next = put_byte(out, at, *first);
    next = put_bytes(out, next, rest);
    put(out, next, SPACE)
}

// Every register of the slice, with a space before each.
pub(crate) fn put_slice(out: &mut [u8], at: usize, state: State, slice: &[u16]) -> usize {
    let mut next = put_state(out, at, state);
    for register in slice {
        next = put(out, next, SPACE);
        next = put_word(out, next, *register);
    }
    put_end(out, next)
}

pub(crate) fn put_heard(out: &mut [u8], at: usize, state: State, taken: usize) -> usize {
    let next = put_state(out, at, state);
    let space = put(out, next, SPACE);
    let count = put_count(out, space, taken);
    put_end(out, count)
}

fn put_end(out: &mut [u8], at: usize) -> usize {
    put(out, at, LF)
}

pub(crate) fn put_mark(out: &mut [u8], at: usize, mark: u8) -> usize {
    let next = put(out, at, mark);
    put_end(out, next)
}

// NUMBER SWITCHES NEED REAL
fn put_state(out: &mut [u8], at: usize, state: State) -> usize {
    let mut next = put_number(out, at, state.number, state.register);
    next = put(out, next, SPACE);
    next = put(out, next, switch(state.charge, b'c'));
    next = put(out, next, switch(state.discharge, b'd'));
    next = put(out, next, SPACE);
    next = put_word(out, next, state.need);
    next = put(out, next, SPACE);
    put_word(out, next, state.real)
}

// NUMBER, or 44:REGISTER.
fn put_number(out: &mut [u8], at: usize, number: u8, register: u16) -> usize {
    let next = put_decimal(out, at, u64::from(number));
    if register == 0 {
        return next;
    }
    let colon = put(out, next, b':');
    put_decimal(out, colon, u64::from(register))
}

fn switch(is_on: bool, letter: u8) -> u8 {
    if is_on { letter } else { b'-' }
}

// LOW HIGH
pub(crate) fn put_crc(out: &mut [u8], at: usize, crc: u16) -> usize {
    let mut next = put_byte(out, at, (crc % 256) as u8);
    next = put(out, next, SPACE);
    next = put_byte(out, next, (crc / 256) as u8);
    put_end(out, next)
}

// VALUE, or - where there is none.
pub(crate) fn put_shown(out: &mut [u8], at: usize, shown: Option<u16>) -> usize {
    match shown {
        Some(value) => put_value(out, at, value),
        None => put_mark(out, at, b'-'),
    }
}

fn put_value(out: &mut [u8], at: usize, value: u16) -> usize {
    let next = put_word(out, at, value);
    put_end(out, next)
}

// BYTE.. +Z, with a space before each.
fn put_reply(out: &mut [u8], at: usize, reply: &[u8]) -> usize {
    let said = without_zeros(reply);
    let bytes = put_bytes(out, at, &reply[0..said]);
    let space = put(out, bytes, SPACE);
    put_zeros(out, space, reply.len() - said)
}

// +Z
fn put_zeros(out: &mut [u8], at: usize, count: usize) -> usize {
    let plus = put(out, at, b'+');
    put_count(out, plus, count)
}

fn put_count(out: &mut [u8], at: usize, count: usize) -> usize {
    put_decimal(out, at, count as u64)
}
