// What is counted since the last clear: distance, largest currents and cell difference, latchings, temperatures, and the sums of the current.
#![tactic(auto)]

ghost use Rattle.std.specs.Prelude.{◌≡◌, ◌+◌, ◌-◌, ◌≤◌, min, max};
ghost use Rattle.laws.specs.Row.{row};
ghost use Rattle.statistics.specs.Statistics.{ridden_pulses, distance_of, hundreds, count_of, counts_of, with_external, temperatures_shown};
ghost use Rattle.statistics.specs.Statistics.{summed_of, ridden_of, counted_of, cleared_at, register_of, latchings_of, bill_of};

use cells::Extremes;
use desk::Record;
use guard::Conditions;
use numbers::{WORDS, words};
use readings::Readings;

// Past so many pulses, 2^48, every distance has stopped at its end.
const MOST_PULSES: u64 = 281474976710656;

// C holds this struct by its fields: so a flag beside the two, and no Option of them.
#[repr(C)]
#[derive(Clone, Copy, Default)]
pub struct Temperatures {
    pub coldest: i16, // external, 0.1 °C
    pub hottest: i16,
    pub seen: bool, // one was connected
}

#[repr(C)]
#[derive(Clone, Copy, Default)]
pub struct Counts {
    pub uv: u16,
    pub ov: u16,
    pub doc: u16,
    pub charge: u16, // COC and ROC
    pub ot: u16,
    pub charging: u16, // entries into 0x91
}

// Of the mA of each tick, exact up to the largest value.
#[repr(C)]
#[derive(Clone, Copy, Default)]
pub struct Sums {
    pub positive: u64,
    pub negative: u64, // as a positive number
}

#[repr(C)]
#[derive(Clone, Copy, Default)]
pub struct Statistics {
    pub temperatures: Temperatures,
    pub counts: Counts,
    pub sums: Sums,
    pub pulses: u64, // all since the clear: the distance is told from them, so no remainder can stay behind
    pub drawn: u16, // largest currents, 100 mA
    pub fed: u16,
    pub difference: u16, // largest between cells, 0.1 mV
    pub cleared: u32, // the lifetime at the clear
}

impl Statistics {
    // As a clear leaves them.
    #[tactic(auto, unfolding(crate::specs::Statistics::cleared_at))]
    pub fn cleared_at(lifetime: u32) -> Statistics
        ensures { result ≡ cleared_at lifetime }
    {
        Statistics {
            cleared: lifetime,
            ..Statistics::default()
        }
    }

    // A tick's pulses, by which the distance grows.
    #[tactic(auto, unfolding(crate::specs::Statistics::ridden_of))]
    pub fn ridden(mut self, pulses: u16) -> Statistics
        ensures { result ≡ ridden_of self pulses }
    {
        self.pulses = self
            .pulses
            .saturating_add(u64::from(pulses))
            .min(MOST_PULSES);
        self
    }

    // All else that a tick counts: the latches go from `before` to `after`, and 0x91 is entered or not.
    pub fn counted(
        self,
        readings: Readings,
        extremes: Extremes,
        before: Conditions,
        after: Conditions,
        entered: bool,
    ) -> Statistics
        ensures { result ≡ counted_of self readings extremes before after entered }
    {
        let temperatures = self
            .temperatures
            .with(readings.external1)
            .with(readings.external2);
        let counts = self.counts.next(before, after, entered);
        let sums = self.sums.with(readings.current);
        let drawn = self
            .drawn
            .max(in_hundreds(signed::negative(readings.current)));
        let fed = self
            .fed
            .max(in_hundreds(signed::positive(readings.current)));
        let difference = self.difference.max(extremes.difference());
        Statistics {
            temperatures,
            counts,
            sums,
            pulses: self.pulses,
            drawn,
            fed,
            difference,
            cleared: self.cleared,
        }
    }

    // In 0.01 km, on a board with those pulses per km.
    #[tactic(auto, unfolding(crate::specs::Statistics::distance_of))]
    pub fn distance(self, per_km: u16) -> u32
        ensures { result ≡ distance_of self.pulses per_km }
    {
        if per_km == 0 {
            return 0;
        }
        (100 * self.pulses.min(MOST_PULSES) / (per_km as u64)).min(u32::MAX as u64) as u32
    }

    // What the desk gets at a handover, for the pack of that number, at that lifetime.
    #[tactic(auto, unfolding(crate::specs::Statistics::bill_of))]
    pub fn billed(self, pack: u32, per_km: u16, lifetime: u32) -> Record
        ensures { result ≡ bill_of self pack per_km lifetime }
    {
        Record {
            pack,
            seconds: lifetime.saturating_sub(self.cleared),
            positive: self.sums.positive,
            negative: self.sums.negative,
            distance: self.distance(per_km),
            latchings: self.counts.latchings(),
        }
    }

    // So many registers from 100 + `from` on, as the words of a reply; zeros after them.
    pub fn registers(self, per_km: u16, from: u8, count: u8) -> [u16; WORDS]
        ensures { result ≡ row 127 (λ i. register_of self per_km (100 + from + i)) (min 127 count) }
    {
        let first = 100 + u16::from(from);
        words(count, |i| self.register(per_km, first + i))
    }

    // A register of 100 to 117; an unlisted one reads 0.
    #[tactic(auto, unfolding(crate::specs::Statistics::register_of))]
    fn register(self, per_km: u16, at: u16) -> u16
        ensures { result ≡ register_of self per_km at }
    {
        match at {
            100 => numbers::low(self.distance(per_km)),
            101 => numbers::high(self.distance(per_km)),
            102 => self.drawn,
            103 => self.fed,
            104 => self.difference,
            105 => self.counts.uv,
            106 => self.counts.ov,
            107 => self.counts.doc,
            108 => self.counts.charge,
            109 => self.counts.ot,
            111 => self.counts.charging,
            113 => self.temperatures.shown(),
            116 => numbers::low(self.cleared),
            117 => numbers::high(self.cleared),
            _ => 0,
        }
    }
}

impl Temperatures {
    fn with(self, external: i16) -> Temperatures
        ensures { result ≡ with_external self external }
    {
        if !readings::is_connected(external) {
            return self;
        }
        if !self.seen {
            return Temperatures {
                coldest: external,
                hottest: external,
                seen: true,
            };
        }
        let coldest = signed::lower(external, self.coldest);
        let hottest = signed::higher(self.hottest, external);
        Temperatures {
            coldest,
            hottest,
            seen: true,
        }
    }

    #[tactic(auto, unfolding(crate::specs::Statistics::temperatures_shown))]
    fn shown(self) -> u16
        ensures { result ≡ temperatures_shown self }
    {
        if !self.seen {
            return 0;
        }
        let low = signed::degrees(self.coldest) as u16;
        let high = signed::degrees(self.hottest) as u16;
        low + 256 * high
    }
}

impl Counts {
    #[tactic(auto, unfolding(crate::specs::Statistics::counts_of))]
    fn next(self, before: Conditions, after: Conditions, entered: bool) -> Counts
        ensures { result ≡ counts_of self before after entered }
    {
        let uv = counted_up(self.uv, after.uv & !before.uv);
        let ov = counted_up(self.ov, after.ov & !before.ov);
        let doc = counted_up(self.doc, after.doc & !before.doc);
        let coc = counted_up(self.charge, after.coc & !before.coc);
        let charge = counted_up(coc, after.roc & !before.roc);
        let ot = counted_up(self.ot, after.ot & !before.ot);
        let charging = counted_up(self.charging, entered);
        Counts {
            uv,
            ov,
            doc,
            charge,
            ot,
            charging,
        }
    }

    // The sum of registers 105 to 109.
    fn latchings(self) -> u32
        ensures { result ≡ latchings_of self }
    {
        u32::from(self.uv)
            + u32::from(self.ov)
            + u32::from(self.doc)
            + u32::from(self.charge)
            + u32::from(self.ot)
    }
}

impl Sums {
    #[tactic(auto, unfolding(crate::specs::Statistics::summed_of))]
    fn with(self, current: i32) -> Sums
        ensures { result ≡ summed_of self current }
    {
        let fed = u64::from(signed::positive(current));
        let drawn = u64::from(signed::negative(current));
        Sums {
            positive: self.positive.saturating_add(fed),
            negative: self.negative.saturating_add(drawn),
        }
    }
}

fn counted_up(n: u16, more: bool) -> u16
    ensures { result ≡ count_of n more }
{
    if more { n.saturating_add(1) } else { n }
}

fn in_hundreds(milliamps: u32) -> u16
    ensures { result ≡ hundreds milliamps }
{
    (milliamps / 100).min(u32::from(u16::MAX)) as u16
}
