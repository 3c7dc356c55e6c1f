// Events in the pack's memory: saved into a lent area, and loaded from one.
ghost use Rattle.std.specs.Prelude.{◌≡◌, length};
ghost use Rattle.board.specs.Calls.{save, load};
ghost use Rattle.board.specs.Promises.{Answers, Leaves};

use crate::{Answer, Board};
use events::Events;

impl Board {
    // The kept events into the area, oldest first; nothing written where it is refused. Nothing is marked.
    pub fn save(self, area: &mut [u8]) -> Answer
        ensures { Leaves self (save (length area.old)) area.old result area.new }
    {
        let outcome = self.pack.outcome();
        if outcome.is_err() {
            return self.with_outcome(outcome);
        }
        let saved = self.hire.events.save(area);
        self.with_outcome(saved)
    }

    // The events of the area in the place of the kept ones, all of them sent; refused, the board as it was.
    pub fn load(self, area: &[u8]) -> Answer
        ensures { Answers self (load area.now) result }
    {
        let outcome = self.pack.outcome();
        if outcome.is_err() {
            return self.with_outcome(outcome);
        }
        match Events::load(area) {
            Ok(events) => self
                .with_hire(self.hire.with_events(events))
                .with_outcome(Ok(())),
            Err(refusal) => self.with_outcome(Err(refusal)),
        }
    }
}
