// What a partner's charging cabinet reads: the registers 0x1000 to 0x1013, of what one tick read and of nothing else.
#![tactic(auto)]

ghost use Rattle.std.specs.Prelude.{◌≡◌, cond, ◌+◌, ◌/◌, ◌%◌, ◌≤◌, min};
ghost use Rattle.signed.specs.Signed.{bits_of};
ghost use Rattle.readings.specs.Readings.{connected};
ghost use Rattle.cabinet.specs.Cabinet.{volts_of, amps_of, average_of, measured_of, register_at, Fills};

use cells::Extremes;
use readings::Readings;
use refusals::{Outcome, Refusal};

// What a tick read, as far as a cabinet asks for it.
#[derive(Clone, Copy)]
pub struct Measured {
    pub current: i32, // mA, charging positive
    pub internal: i16, // 0.1 °C, as both externals
    pub external1: i16, // -32768: not connected
    pub external2: i16,
    pub sum: u32, // of the cells, exact, in 0.1 mV as both cells
    pub lowest: u16,
    pub highest: u16,
}

impl Measured {
    // Of a tick's readings, and of its cells as they are kept, with zeros after them.
    pub fn of(readings: Readings, cells: [u16; 16], extremes: Extremes) -> Measured
        ensures { result ≡ measured_of readings cells extremes }
    {
        Measured {
            current: readings.current,
            internal: readings.internal,
            external1: readings.external1,
            external2: readings.external2,
            sum: cells::sum(&cells),
            lowest: extremes.lowest,
            highest: extremes.highest,
        }
    }

    // Every register of the slice; nothing written where it is refused.
    pub fn fill(self, slice: &mut [u16]) -> Outcome
        ensures { Fills self slice.old result slice.new }
    {
        if slice.len() != 20 {
            return Err(Refusal::WrongSlice);
        }
        for (i, register) in slice.iter_mut().enumerate() {
            *register = self.register(i as u16);
        }
        Ok(())
    }

    // By its place from 0x1000 on.
    fn register(self, at: u16) -> u16
        ensures { result ≡ register_at self at }
    {
        let first = self.external1;
        let second = self.external2;
        match at {
            0 => volts(self.sum),
            1 => amps(self.current),
            3 => average(first, second),
            13 => cells::millivolts(self.highest),
            14 => cells::millivolts(self.lowest),
            16 => of_connected(
                first,
                second,
                signed::to_bits(signed::higher(first, second)),
            ),
            17 => of_connected(first, second, signed::to_bits(signed::lower(first, second))),
            18 => signed::to_bits(self.internal),
            _ => 0,
        }
    }
}

// Held to what sixteen bits hold: no board has cells for more than 10,485.
fn volts(sum: u32) -> u16
    ensures { result ≡ volts_of sum }
{
    (sum / 100).min(65535) as u16
}

// Each side of zero is divided by itself, so that both are rounded toward it; one of the two is 0.
fn amps(current: i32) -> u16
    ensures { result ≡ bits_of (amps_of current) }
{
    let fed = charging(signed::positive(current));
    let drawn = discharging(signed::negative(current));
    ((fed + (65536 - drawn)) % 65536) as u16
}

fn charging(positive: u32) -> u32
    ensures { (result ≡ min (positive / 10) 32767) × (result ≤ 32767) }
{
    (positive / 10).min(32767)
}

fn discharging(negative: u32) -> u32
    ensures { (result ≡ min (negative / 10) 32768) × (result ≤ 32768) }
{
    (negative / 10).min(32768)
}

fn average(first: i16, second: i16) -> u16
    ensures { result ≡ bits_of (average_of first second) }
{
    let both = half_of_sum(signed::to_bits(first), signed::to_bits(second));
    of_connected(first, second, both)
}

// What both give if both are connected; one alone gives itself, and none gives 0.
fn of_connected(first: i16, second: i16, both: u16) -> u16
    ensures { result ≡ cond (connected first) (cond (connected second) both (bits_of first)) (cond (connected second) (bits_of second) 0) }
{
    let one = readings::is_connected(first);
    let two = readings::is_connected(second);
    chosen(
        one,
        two,
        both,
        signed::to_bits(first),
        signed::to_bits(second),
    )
}

fn chosen(one: bool, two: bool, both: u16, first: u16, second: u16) -> u16
    ensures { result ≡ cond one (cond two both first) (cond two second 0) }
{
    if one {
        if two { both } else { first }
    } else {
        if two { second } else { 0 }
    }
}

// Of signed numbers as bits: each raised by half the range, so that the division rounds toward minus infinity.
fn half_of_sum(first: u16, second: u16) -> u16
    ensures { result ≡ (((first + 32768) % 65536 + (second + 32768) % 65536) / 2 + 32768) % 65536 }
{
    let sum = (u32::from(first) + 32768) % 65536 + (u32::from(second) + 32768) % 65536;
    ((sum / 2 + 32768) % 65536) as u16
}
