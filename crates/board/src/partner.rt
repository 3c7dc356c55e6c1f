// What a partner's charging cabinet reads, of the readings that the board holds.
ghost use Rattle.std.specs.Prelude.{◌≡◌, length};
ghost use Rattle.board.specs.State.{measured_in};
ghost use Rattle.board.specs.Calls.{cabinet};
ghost use Rattle.board.specs.Promises.{Leaves};

use crate::{Answer, Board};
use cabinet::Measured;

impl Board {
    // Every register of the slice; nothing written where it is refused. Nothing changes.
    pub fn cabinet(self, slice: &mut [u16]) -> Answer
        ensures { Leaves self (cabinet (length slice.old)) slice.old result slice.new }
    {
        let outcome = self.pack.outcome();
        if outcome.is_err() {
            return self.with_outcome(outcome);
        }
        let filled = self.measured().fill(slice);
        self.with_outcome(filled)
    }

    fn measured(self) -> Measured
        ensures { result ≡ measured_in self }
    {
        let sensed = self.hire.sensed;
        let cells = sensed.cells;
        Measured::of(sensed.readings, cells, sensed.extremes)
    }
}
