// The plain engine: what is latched after the first ticks of a recording, each condition found by itself by looking back through the
// records. Nothing is carried from tick to tick and there is no timer. It is slow and plain on purpose, so that a mechanic can read it.
// The settings are given, and are the same at every tick.
#![tactic(auto)]

ghost use Rattle.std.specs.Prelude.{◌≡◌, ◌*◌, ◌-◌, ◌<◌, min, take};
ghost use Rattle.laws.specs.History.{some, stands, waits};
ghost use Rattle.cells.specs.Cells.{extremes_of};
ghost use Rattle.guard.specs.Account.{wait_of, since_hot, latched_from};
ghost use Rattle.engine.specs.Engine.{record_at, moments_of};
ghost use Rattle.engine.specs.Week.{moment, first_ticks};
ghost use Rattle.engine.specs.Looks.{held, recovers_with, recovered, connected_at, either_of, stays_hot, unbroken_hot};

use cells::Extremes;
use guard::{Condition, Conditions, Remembered, Waits};
use record::Record;
use settings::Settings;

// After so many ticks, on a board with those settings and that cell count. The records are the bytes after the opening four; what is
// missing reads as zeros.
pub fn latched(settings: Settings, records: &[u8], count: u8, ticks: usize) -> Conditions
    ensures { result ≡ latched_from (moments_of settings count records.now ticks) }
{
    let week = Week {
        settings,
        records,
        count,
    };
    week.latched(ticks)
}

// The records of a week, and the settings and the cell count of the board that they are of.
#[derive(Clone, Copy)]
struct Week<'a> {
    settings: Settings,
    records: &'a [u8],
    count: u8,
}

impl Week<'_> {
    #[tactic(auto, unfolding(guard::specs::Guard::recovers_of, guard::specs::Table::is, guard::specs::Account::latched_from))]
    fn latched(&self, ticks: usize) -> Conditions
        ensures { result ≡ latched_from (first_ticks self.now ticks) }
    {
        Conditions {
            uv: self.stands(ticks, Condition::UV),
            ov: self.stands(ticks, Condition::OV),
            ot: self.ot_stands(ticks),
            doc: self.waits(ticks, Condition::DOC),
            coc: self.waits(ticks, Condition::COC),
            roc: self.waits(ticks, Condition::ROC),
            lt: self.stands(ticks, Condition::LT),
        }
    }

    // It held at a tick, and no later one recovered it.
    #[tactic(auto, using(crate::proofs::Back::passed))]
    fn stands(&self, ticks: usize, condition: Condition) -> bool
        ensures { result ≡ stands (held condition) (recovered condition) (first_ticks self.now ticks) }
    {
        for tick in (0..ticks).rev() {
            if self.held(tick, condition) {
                return true;
            }
            if self.recovered(tick, condition) {
                return false;
            }
        }
        false
    }

    // It held at a tick, and since the latest such tick there were fewer ticks than the wait.
    #[tactic(auto, using(crate::proofs::Back::waits_held, crate::proofs::Back::waits_passed))]
    fn waits(&self, ticks: usize, condition: Condition) -> bool
        ensures { result ≡ waits (held condition) wait_of (first_ticks self.now ticks) }
    {
        for tick in (0..ticks).rev() {
            if self.held(tick, condition) {
                return ticks - tick - 1 < self.wait();
            }
        }
        false
    }

    // OT by W-204: some ticks up to the newest are unbroken. The longest such stretch is tried first.
    #[tactic(auto, using(crate::proofs::Stretch::tries, crate::proofs::Stretch::further))]
    fn ot_stands(&self, ticks: usize) -> bool
        ensures { result ≡ some (since_hot (first_ticks self.now ticks)) }
    {
        for first in 0..ticks {
            if self.is_unbroken(first, ticks) {
                return true;
            }
        }
        false
    }

    // OT held at the first of these ticks, and at each later one it held or was not recovered, by the sensors connected since the first.
    fn is_unbroken(&self, first: usize, ticks: usize) -> bool
        requires { first < ticks }
        ensures { result ≡ unbroken_hot (take (ticks - first) (first_ticks self.now ticks)) }
    {
        let mut seen = self.connected(first);
        if !self.held(first, Condition::OT) {
            return false;
        }
        for tick in first + 1..ticks {
            let now = self.connected(tick);
            seen = either(now, seen);
            if !self.stays_hot(tick, seen) {
                return false;
            }
        }
        true
    }

    // OT holds at this tick, or is not recovered.
    #[tactic(auto, unfolding(guard::specs::Table::is))]
    fn stays_hot(&self, tick: usize, seen: Remembered) -> bool
        ensures { result ≡ stays_hot seen (moment self.now tick) }
    {
        self.held(tick, Condition::OT) | !self.recovers(tick, seen).ot
    }

    // The table's column 'Holds' at a tick.
    #[tactic(auto, unfolding(crate::specs::Engine::moment_at))]
    fn held(&self, tick: usize, condition: Condition) -> bool
        ensures { result ≡ held condition (moment self.now tick) }
    {
        let record = self.record(tick);
        guard::holding(self.settings, record.readings, self.extremes(record.cells)).of(condition)
    }

    // Its column 'Recovers', where no sensor is remembered.
    fn recovered(&self, tick: usize, condition: Condition) -> bool
        ensures { result ≡ recovered condition (moment self.now tick) }
    {
        self.recovers(tick, Remembered::default()).of(condition)
    }

    // The column with these sensors remembered; of waits it tells nothing.
    #[tactic(auto, unfolding(crate::specs::Engine::moment_at))]
    fn recovers(&self, tick: usize, seen: Remembered) -> Conditions
        ensures { result ≡ recovers_with seen (moment self.now tick) }
    {
        let record = self.record(tick);
        guard::recovering(
            self.settings,
            record.readings,
            self.extremes(record.cells),
            Waits::default(),
            seen,
        )
    }

    // The externals that are connected at a tick.
    #[tactic(auto, unfolding(crate::specs::Engine::moment_at))]
    fn connected(&self, tick: usize) -> Remembered
        ensures { result ≡ connected_at (moment self.now tick).readings }
    {
        let readings = self.record(tick).readings;
        Remembered {
            external1: readings::is_connected(readings.external1),
            external2: readings::is_connected(readings.external2),
        }
    }

    // 10·r332, in ticks.
    fn wait(&self) -> usize
        ensures { result ≡ 10 * self.now.settings.r332 }
    {
        10 * usize::from(self.settings.r332)
    }

    // The lowest and the highest of the board's cells.
    fn extremes(&self, cells: [u16; 16]) -> Extremes
        ensures { result ≡ extremes_of (take (min 16 self.now.count) cells) }
    {
        Extremes::of(&cells[..record::cells_used(self.count)])
    }

    // A record past the end has no bytes, and a cut one has fewer; `Record::of` reads those as zeros. Inlined, as that is.
    #[inline(always)]
    fn record(&self, tick: usize) -> Record
        ensures { result ≡ record_at self.now.count self.now.records.now tick }
    {
        // 48 times a huge number would not fit.
        let start = tick.saturating_mul(48).min(self.records.len());
        let bytes = &self.records[start..];
        Record::of(&bytes[..bytes.len().min(48)], self.count)
    }
}

fn either(a: Remembered, b: Remembered) -> Remembered
    ensures { result ≡ either_of a b }
{
    Remembered {
        external1: a.external1 | b.external1,
        external2: a.external2 | b.external2,
    }
}
