// Reads. One that fails is not the end of what is read.
ghost use Rattle.std.specs.Prelude.{◌≤◌, length};

use std::io::Read;

// How many bytes stand in the buffer, 0 at the end, and whether no read failed. No Result: the bytes before a failure count.
#[derive(Clone, Copy)]
pub struct Got {
    pub count: usize,
    pub is_well: bool,
}

// What has come, without waiting for more. Where the reader does not go on nothing is read, and that is not well.
pub fn read<R: Read>(goes_on: bool, input: &mut R, buffer: &mut [u8]) -> Got
    ensures { result.count ≤ length buffer.new }
{
    if goes_on {
        one_read(input, buffer)
    } else {
        Got {
            count: 0,
            is_well: false,
        }
    }
}

fn one_read<R: Read>(input: &mut R, buffer: &mut [u8]) -> Got
    ensures { result.count ≤ length buffer.new }
{
    match input.read(buffer) {
        Ok(count) => Got {
            count,
            is_well: true,
        },
        Err(_) => Got {
            count: 0,
            is_well: false,
        },
    }
}

// As many bytes as the buffer holds; fewer at the end, or where a read failed.
pub fn read_full<R: Read>(goes_on: bool, input: &mut R, buffer: &mut [u8]) -> Got
    ensures { result.count ≤ length buffer.new }
{
    let mut count = 0;
    let mut next = read(goes_on, input, buffer);
    // By how many bytes have come, which each read says.
    while 0 < next.count && count + next.count < buffer.len() {
        count += next.count;
        next = one_read(input, &mut buffer[count..]);
    }
    Got {
        count: count + next.count,
        is_well: next.is_well,
    }
}

// Records of that size, as many as the buffer holds; at the end the last may be cut. Where a read failed they are the whole ones
// before it: none of them is cut.
pub fn read_records<R: Read>(goes_on: bool, input: &mut R, buffer: &mut [u8], size: usize) -> Got
    ensures { result.count ≤ length buffer.new }
{
    let got = read_full(goes_on, input, buffer);
    Got {
        count: record_bytes(got, size),
        is_well: got.is_well,
    }
}

// How many bytes the records have: no more than were read.
fn record_bytes(got: Got, size: usize) -> usize
    ensures { result ≤ got.count }
{
    if got.is_well {
        return got.count;
    }
    got.count - got.count.checked_rem(size).unwrap_or(0)
}
