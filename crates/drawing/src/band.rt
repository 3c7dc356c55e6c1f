// The outline of a band: along the tops of the columns, down at the end, and back along their bottoms. A path's `H` goes along to a place,
// its `V` up or down to a height, and `z` closes it. Equal neighbours cost nothing.
ghost use Rattle.std.specs.Prelude.{cond, ◌≡◌, ◌+◌, ◌-◌, ◌≤◌, ◌<◌, length, get_or};
ghost use Rattle.text.specs.Digits.{Put, Wrote};
ghost use Rattle.drawing.specs.Paths.{corner_text, step_text, edge_at, side_text, outline, band_text};

use crate::room::{digits, room_from, write_part};
use text::{put_decimal, put_text};

// As many columns as there are tops; a bottom that is missing is 0. Without columns nothing is put.
pub fn put_band(out: &mut [u8], at: usize, tops: &[u16], bottoms: &[u16]) -> usize
    ensures { Put out.old at (band_text tops.now bottoms.now) result out.new }
{
    if tops.len() == 0 {
        return at;
    }
    let last = tops.len() - 1;
    if 0 < band_left(room_from(out.len(), at), last, tops, bottoms) {
        return write_band(out, at, last, tops, bottoms);
    }
    at
}

fn band_left(room: u64, last: usize, tops: &[u16], bottoms: &[u16]) -> u64
    requires { last < length tops.now }
    ensures { result ≡ room - length (outline last tops.now bottoms.now) }
{
    let along = Side {
        heights: tops,
        last,
        back: false,
    };
    let back = Side {
        heights: bottoms,
        last,
        back: true,
    };
    let opened = room.saturating_sub(3 + digits(along.height(0)));
    let turning = along.left(opened);
    let turned = turning.saturating_sub(corner_length(last + 1, back.height(last)));
    back.left(turned).saturating_sub(3)
}

fn write_band(out: &mut [u8], at: usize, last: usize, tops: &[u16], bottoms: &[u16]) -> usize
    requires { (last < length tops.now) × (at + length (outline last tops.now bottoms.now) ≤ length out.old) }
    ensures { Wrote out.old at (outline last tops.now bottoms.now) result out.new }
{
    let along = Side {
        heights: tops,
        last,
        back: false,
    };
    let back = Side {
        heights: bottoms,
        last,
        back: true,
    };
    let first = put_text(out, at, b"M0 ");
    let opened = put_decimal(out, first, along.height(0));
    let turning = along.write(out, opened);
    let turned = write_corner(out, turning, last + 1, back.height(last));
    let returned = back.write(out, turned);
    put_text(out, returned, b"H0z")
}

// The edges up to the last column: along the tops, or back along the bottoms.
#[derive(Clone, Copy)]
struct Side<'a> {
    heights: &'a [u16],
    last: usize,
    back: bool,
}

impl Side<'_> {
    fn left(&self, room: u64) -> u64
        ensures { result ≡ room - length (side_text self.now.back self.now.heights.now self.now.last) }
    {
        let mut left = room;
        for k in 0..self.last {
            left = left.saturating_sub(self.step_length(self.edge(k)));
        }
        left
    }

    fn write(&self, out: &mut [u8], at: usize) -> usize
        requires { at + length (side_text self.now.back self.now.heights.now self.now.last) ≤ length out.old }
        ensures { Wrote out.old at (side_text self.now.back self.now.heights.now self.now.last) result out.new }
    {
        let mut next = at;
        for k in 0..self.last {
            next = self.write_step(out, next, self.edge(k));
        }
        next
    }

    // The edges between columns in their order: 1 to the last, and on the way back the last to 1.
    fn edge(&self, k: usize) -> usize
        requires { k < self.now.last }
        ensures { (result ≡ edge_at self.now.back self.now.last k) × (0 < result) }
    {
        let last = self.last;
        if self.back { last - k } else { k + 1 }
    }

    fn step_length(&self, edge: usize) -> u64
        requires { 0 < edge }
        ensures { result ≡ length (step_text self.now.back self.now.heights.now edge) }
    {
        let before = self.height(edge - 1);
        let behind = self.height(edge);
        if before == behind {
            return 0;
        }
        corner_length(edge, self.onward(before, behind))
    }

    fn write_step(&self, out: &mut [u8], at: usize, edge: usize) -> usize
        requires { (0 < edge) × (at + length (step_text self.now.back self.now.heights.now edge) ≤ length out.old) }
        ensures { Wrote out.old at (step_text self.now.back self.now.heights.now edge) result out.new }
    {
        let before = self.height(edge - 1);
        let behind = self.height(edge);
        if before == behind {
            return at;
        }
        write_corner(out, at, edge, self.onward(before, behind))
    }

    // The height on which the outline goes on.
    fn onward(&self, before: u64, behind: u64) -> u64
        ensures { result ≡ cond self.now.back before behind }
    {
        if self.back { before } else { behind }
    }

    fn height(&self, i: usize) -> u64
        ensures { result ≡ get_or self.now.heights.now i 0 }
    {
        u64::from(self.heights.get(i).copied().unwrap_or(0))
    }
}

fn corner_length(edge: usize, height: u64) -> u64
    ensures { result ≡ length (corner_text edge height) }
{
    2 + digits(edge as u64) + digits(height)
}

fn write_corner(out: &mut [u8], at: usize, edge: usize, height: u64) -> usize
    requires { at + length (corner_text edge height) ≤ length out.old }
    ensures { Wrote out.old at (corner_text edge height) result out.new }
{
    let next = write_part(out, at, b'H', edge as u64);
    write_part(out, next, b'V', height)
}
