// A tick: one set of readings.
ghost use Rattle.std.specs.Prelude.{◌≡◌};
ghost use Rattle.board.specs.Promises.{Answers};
ghost use Rattle.board.specs.Calls.{tick};
ghost use Rattle.board.specs.Tick.{sensed, watched, acted, ticked_of};

use crate::{Answer, Board};
use cells::Extremes;
use guard::Conditions;
use readings::Readings;

impl Board {
    // The cells in 0.1 mV, and the other readings. A refusal changes nothing.
    pub fn tick(self, cells: &[u16], readings: Readings) -> Answer
        ensures { Answers self (tick cells.now readings) result }
    {
        let outcome = self.pack.tick_outcome(readings, cells.len());
        if outcome.is_err() {
            return self.with_outcome(outcome);
        }
        self.ticked(cells, readings).with_outcome(outcome)
    }

    // An accepted tick: document 01's steps in its order.
    fn ticked(self, cells: &[u16], readings: Readings) -> Board
        ensures { result ≡ ticked_of self cells.now readings }
    {
        let extremes = Extremes::of(cells);
        let before = self.pack.guard.latched;
        let status = self.hire.status;
        let was = self.hire.sensed.readings.charger;
        self.sense(cells, readings, extremes)
            .watch(readings, extremes, was)
            .act(cells, readings, extremes, before, status)
    }

    // Readings kept; time; speed and distance.
    fn sense(self, cells: &[u16], readings: Readings, extremes: Extremes) -> Board
        ensures { result ≡ sensed cells.now readings extremes self }
    {
        let pack = self.pack.pass_time();
        let hire = self
            .hire
            .keep_readings(cells, readings, extremes)
            .ride(readings.pulses);
        Board { pack, hire }
    }

    // Charger event; conditions, with their events; status. The charger as it was at the tick before.
    fn watch(self, readings: Readings, extremes: Extremes, was: bool) -> Board
        ensures { result ≡ watched readings extremes was self }
    {
        let before = self.pack.guard.latched;
        let pack = self.pack.guard_conditions(readings, extremes);
        let after = pack.guard.latched;
        let events = hire::events_of(was, readings.charger, before, after);
        let hire = self
            .hire
            .record(pack.clock.seconds, events)
            .set_status(after, readings);
        Board { pack, hire }
    }

    // Balancing; statistics; switches. The latches and the status as they were before the tick.
    fn act(
        self,
        cells: &[u16],
        readings: Readings,
        extremes: Extremes,
        before: Conditions,
        status: u16,
    ) -> Board
        ensures { result ≡ acted cells.now readings extremes before status self }
    {
        let settings = self.pack.settings;
        let latched = self.pack.guard.latched;
        let hire = self
            .hire
            .balance(cells, settings.r303, settings.r308, latched.ov)
            .count(readings, extremes, before, latched, status)
            .switch(latched, settings.r334, readings);
        self.with_hire(hire)
    }
}
