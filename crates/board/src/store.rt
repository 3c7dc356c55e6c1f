// Settings by hire class: kept in a lent store under a new edition, and recalled from one.
ghost use Rattle.std.specs.Prelude.{◌≡◌};
ghost use Rattle.board.specs.Calls.{recall};
ghost use Rattle.board.specs.Promises.{Answers, Stores};

use crate::{Answer, Board, Stored};

impl Board {
    // The settings into the store, under the edition that the answer carries; nothing written where it is refused.
    pub fn keep(self, store: &mut [u8]) -> Stored
        ensures { Stores self store.old result store.new }
    {
        let outcome = self.pack.outcome();
        if outcome.is_err() {
            return Stored {
                outcome,
                edition: 0,
                board: self,
            };
        }
        match classes::keep(store, self.pack.settings) {
            Ok(edition) => Stored {
                outcome: Ok(()),
                edition,
                board: self,
            },
            Err(refusal) => Stored {
                outcome: Err(refusal),
                edition: 0,
                board: self,
            },
        }
    }

    // The settings of an edition in the place of those that stand, as one write; refused, the board as it was.
    pub fn recall(self, store: &[u8], edition: u32) -> Answer
        ensures { Answers self (recall store.now edition) result }
    {
        let outcome = self.pack.outcome();
        if outcome.is_err() {
            return self.with_outcome(outcome);
        }
        match classes::recall(self.pack.settings, store, edition) {
            Ok(settings) => self.with_settings(settings).with_outcome(Ok(())),
            Err(refusal) => self.with_outcome(Err(refusal)),
        }
    }
}
