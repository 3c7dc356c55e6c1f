// The raw line: bytes are offered as they come, and a complete frame is held until it is fetched.
ghost use Rattle.std.specs.Prelude.{not, [], ◌∷◌, ◌≡◌, length};
ghost use Rattle.refusals.specs.Refusals.{first};
ghost use Rattle.board.specs.State.{with_receiver};
ghost use Rattle.board.specs.Line.{holds};
ghost use Rattle.board.specs.Calls.{fetch};
ghost use Rattle.board.specs.Promises.{Leaves, Offers, Readied};

use crate::{Answer, Board, Heard};
use receiver::Receiver;
use refusals::{Outcome, Refusal};

impl Board {
    // Takes bytes up to the end of the first complete frame and says how many; none taken while a frame is held.
    pub fn offer(self, bytes: &[u8]) -> Heard
        ensures { Offers self bytes.now result }
    {
        let outcome = self.pack.outcome();
        if outcome.is_err() {
            return Heard {
                outcome,
                taken: 0,
                board: self,
            };
        }
        let offered = self.hire.receiver.offer(bytes);
        let outcome = offered.outcome;
        Heard {
            outcome,
            taken: offered.taken,
            board: self.with_receiver(offered.receiver),
        }
    }

    // Answers the held frame as `frame` does, and lets it go.
    pub fn fetch(self, reply: &mut [u8]) -> Answer
        ensures { Leaves self (fetch (length reply.old)) reply.old result reply.new }
    {
        let outcome = self.ready(reply.len());
        if outcome.is_err() {
            replies::zero_from(reply, 0);
            return self.with_outcome(outcome);
        }
        let receiver = self.hire.receiver;
        let bytes = receiver.bytes;
        let count = receiver.length();
        let answer = self.answered(&bytes[..count], reply);
        let outcome = answer.outcome;
        answer
            .board
            .with_receiver(Receiver::none())
            .with_outcome(outcome)
    }

    // A board, room for any reply, and a frame that is held.
    fn ready(self, room: usize) -> Outcome
        ensures { Readied self room result }
    {
        self.has_room(room)?;
        if !self.hire.receiver.is_held() {
            return Err(Refusal::NoFrameHeld);
        }
        Ok(())
    }

    fn with_receiver(self, receiver: Receiver) -> Board
        ensures { result ≡ with_receiver self receiver }
    {
        self.with_hire(self.hire.with_receiver(receiver))
    }
}
