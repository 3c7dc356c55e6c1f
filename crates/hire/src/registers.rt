// What a hire shows: registers 0 to 55.
ghost use Rattle.std.specs.Prelude.{◌≡◌, ◌+◌, ◌≤◌, min, get_or};
ghost use Rattle.laws.specs.Row.{row};
ghost use Rattle.live.specs.Live.{speed_of, speed_bits_of};
ghost use Rattle.hire.specs.Registers.{temperature_at, reading_register};

use crate::{Hire, Sensed};
use live::Speed;
use numbers::{WORDS, words};

impl Hire {
    // So many registers from `from` on, as the words of a reply, on a board with that lifetime and those pulses per km; zeros after them.
    pub fn registers(self, lifetime: u32, per_km: u16, from: u8, count: u8) -> [u16; WORDS]
        ensures { result ≡ row 127 (λ i. reading_register self lifetime per_km (from + i)) (min 127 count) }
    {
        let first = u16::from(from);
        words(count, |i| self.register(lifetime, per_km, first + i))
    }

    // Registers 0 to 55; 0 past them.
    #[tactic(auto, unfolding(crate::specs::Registers::reading_register))]
    fn register(self, lifetime: u32, per_km: u16, at: u16) -> u16
        ensures { result ≡ reading_register self lifetime per_km at }
    {
        match at {
            0..=15 => self.sensed.cell(at),
            32 => numbers::low(lifetime),
            33 => numbers::high(lifetime),
            36 => numbers::low(self.sensed.live.volts_bits()),
            37 => numbers::high(self.sensed.live.volts_bits()),
            38 => numbers::low(self.sensed.live.amps_bits()),
            39 => numbers::high(self.sensed.live.amps_bits()),
            40 => cells::millivolts(self.sensed.extremes.lowest),
            41 => cells::millivolts(self.sensed.extremes.highest),
            42 => signed::to_bits(self.sensed.readings.external1),
            43 => signed::to_bits(self.sensed.readings.external2),
            48 => signed::to_bits(self.sensed.readings.internal),
            50 => self.status,
            51 => self.decision,
            52 => self.balancing,
            54 => numbers::low(self.speed_bits(per_km)),
            55 => numbers::high(self.speed_bits(per_km)),
            _ => 0,
        }
    }

    // The speed is km/h or "no wheel sensor", which shows 0.
    fn speed_bits(self, per_km: u16) -> u32
        ensures { result ≡ speed_bits_of (speed_of self.window per_km) }
    {
        let window = self.window;
        Speed::over(window, per_km).shown()
    }
}

impl Sensed {
    // So many temperatures, as the words of a reply; zeros after them.
    pub fn temperatures(self, count: u8) -> [u16; WORDS]
        ensures { result ≡ row 127 (temperature_at self) (min 127 count) }
    {
        words(count, |i| self.temperature(i))
    }

    // Internal, external 1, external 2.
    fn temperature(self, i: u16) -> u16
        ensures { result ≡ temperature_at self i }
    {
        match i {
            0 => signed::to_bits(self.readings.internal),
            1 => signed::to_bits(self.readings.external1),
            _ => signed::to_bits(self.readings.external2),
        }
    }

    // Registers 0 to 15.
    fn cell(self, at: u16) -> u16
        requires { at ≤ 15 }
        ensures { result ≡ get_or self.cells at 0 }
    {
        let cells = self.cells;
        cells[usize::from(at)]
    }
}
