// Something that comes and goes, tick by tick: how often it came, at which tick first and last, and how many ticks the spells took that
// are over.
#![tactic(auto)]

ghost use Rattle.std.specs.Prelude.{◌≡◌};
ghost use Rattle.spells.specs.Spells.{no_spells, with_tick};

#[derive(Clone, Copy, Default)]
pub struct Spells {
    pub count: u64,
    pub ticks: u64, // of the spells that are over
    pub first: u64, // the tick at which the first came; 0: none did
    pub last: u64, // the tick at which the last came
    pub holds: bool, // at the latest tick
}

impl Spells {
    // Before the first tick.
    pub fn none() -> Spells
        ensures { result ≡ no_spells }
    {
        Spells::default()
    }

    // At the next tick, which has that number. Where nothing comes or goes, nothing changes.
    #[tactic(auto, unfolding(crate::specs::Spells::with_tick))]
    pub fn with(self, holds: bool, tick: u64) -> Spells
        ensures { result ≡ with_tick self holds tick }
    {
        match (self.holds, holds) {
            (false, true) => Spells {
                count: self.count.saturating_add(1), // no recording has so many ticks that this stops
                first: if self.count == 0 { tick } else { self.first },
                last: tick,
                holds,
                ..self
            },
            (true, false) => Spells {
                ticks: self.ticks.saturating_add(tick.saturating_sub(self.last)),
                holds,
                ..self
            },
            _ => self,
        }
    }
}
