// The pack: all that a handover keeps. Start numbers, settings, the lifetime with its tenths, latched conditions, waits and
// remembered sensors.
#![tactic(auto)]

ghost use Rattle.std.specs.Prelude.{◌≡◌};
ghost use Rattle.pack.specs.Pack.{usable, new_pack, later_of, time_of, conditions_of, with_settings, start_outcome, tick_outcome};

use cells::Extremes;
use guard::Guard;
use readings::Readings;
use refusals::{Outcome, Refusal};
use settings::Settings;

// The lifetime, with its tenths.
#[repr(C)]
#[derive(Clone, Copy)]
pub struct Clock {
    pub seconds: u32,
    pub tenths: u8,
}

#[repr(C)]
#[derive(Clone, Copy)]
pub struct Pack {
    pub settings: Settings,
    pub guard: Guard,
    pub clock: Clock,
    pub cells: u8, // the cell count; outside 4 to 16 there is no board
    pub per_km: u16, // pulses; 0 means no wheel sensor
}

impl Pack {
    // As it is started: factory settings, nothing latched, no time gone.
    #[tactic(auto, unfolding(crate::specs::Pack::new_pack))]
    pub fn new(cells: u8, per_km: u16) -> Pack
        ensures { result ≡ new_pack cells per_km }
    {
        Pack {
            settings: Settings::factory(),
            guard: Guard::none(),
            clock: Clock {
                seconds: 0,
                tenths: 0,
            },
            cells,
            per_km,
        }
    }

    pub fn is_usable(self) -> bool
        ensures { result ≡ usable self }
    {
        (4 <= self.cells) & (self.cells <= 16)
    }

    // Done for a board that takes calls; a board that is none refuses them all.
    #[tactic(auto, unfolding(refusals::specs::Refusals::first, crate::specs::Pack::start_outcome))]
    pub fn outcome(self) -> Outcome
        ensures { result ≡ start_outcome self }
    {
        if !self.is_usable() {
            return Err(Refusal::NoBoard);
        }
        Ok(())
    }

    // What a tick comes to that brings those readings and so many cells.
    pub fn tick_outcome(self, readings: Readings, given: usize) -> Outcome
        ensures { result ≡ tick_outcome self readings given }
    {
        self.outcome()?;
        readings.judged(self.cells as usize, self.per_km, given)
    }

    #[tactic(auto, unfolding(crate::specs::Pack::time_of))]
    pub fn pass_time(self) -> Pack
        ensures { result ≡ time_of self }
    {
        let clock = self.clock.later();
        let mut pack = self;
        pack.clock = clock;
        pack
    }

    #[tactic(auto, unfolding(crate::specs::Pack::conditions_of))]
    pub fn guard_conditions(self, readings: Readings, extremes: Extremes) -> Pack
        ensures { result ≡ conditions_of self readings extremes }
    {
        let guard = self.guard.next(self.settings, readings, extremes);
        let mut pack = self;
        pack.guard = guard;
        pack
    }

    // The settings anew, and the rest as it was.
    pub fn with_settings(self, settings: Settings) -> Pack
        ensures { result ≡ with_settings self settings }
    {
        let mut pack = self;
        pack.settings = settings;
        pack
    }
}

impl Clock {
    // A tenth later; at the last tenth of the last second the clock stands.
    #[tactic(auto, unfolding(crate::specs::Pack::later_of))]
    fn later(self) -> Clock
        ensures { result ≡ later_of self }
    {
        if self.tenths < 9 {
            return Clock {
                seconds: self.seconds,
                tenths: self.tenths + 1,
            };
        }
        if self.seconds < 4294967295 {
            return Clock {
                seconds: self.seconds + 1,
                tenths: 0,
            };
        }
        self
    }
}
