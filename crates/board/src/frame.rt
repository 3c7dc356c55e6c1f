// A frame: one whole request, answered into a lent buffer.
ghost use Rattle.std.specs.Prelude.{Ok, ◌≡◌, length};
ghost use Rattle.board.specs.Changes.{cleared_events, cleared_statistics, marked_by};
ghost use Rattle.board.specs.Calls.{frame};
ghost use Rattle.board.specs.Promises.{Leaves, Roomed, Changed, Answered};

use crate::{Answer, Board};
use events::Events;
use refusals::{Outcome, Refusal};
use requests::{Query, Request};
use settings::Settings;
use statistics::Statistics;

impl Board {
    // What it comes to, the board after it, and every byte of the reply buffer, whatever its length.
    pub fn frame(self, request: &[u8], reply: &mut [u8]) -> Answer
        ensures { Leaves self (frame request.now (length reply.old)) reply.old result reply.new }
    {
        let outcome = self.has_room(reply.len());
        if outcome.is_err() {
            replies::zero_from(reply, 0);
            return self.with_outcome(outcome);
        }
        self.answered(request, reply)
    }

    // A board, and room for any reply.
    pub(crate) fn has_room(self, room: usize) -> Outcome
        ensures { Roomed self room result }
    {
        self.pack.outcome()?;
        if room < 259 {
            return Err(Refusal::NoRoom);
        }
        Ok(())
    }

    // The answer to a request, and what it changes.
    pub(crate) fn answered(self, request: &[u8], reply: &mut [u8]) -> Answer
        ensures { Answered self request.now reply.old result reply.new }
    {
        // Each arm returns: as the value of the match the board would be copied once more.
        match answers::answer(self.pack, self.hire, request, reply) {
            Ok(taken) => {
                return self
                    .changed(taken.asked, taken.settings)
                    .with_outcome(Ok(()));
            }
            Err(refusal) => return self.with_outcome(Err(refusal)),
        }
    }

    // The board after an accepted request: nothing changes but by 0x02's clears, a write, and 0x11's mark.
    fn changed(self, asked: Request, settings: Settings) -> Board
        ensures { Changed self (Ok asked) settings result }
    {
        match asked {
            Request::ClearEvents => self.clear_events(),
            Request::ClearStatistics => self.clear_statistics(),
            Request::Write { form: _, count: _ } => self.with_settings(settings),
            Request::Read(query) => self.marked(query),
        }
    }

    fn clear_events(self) -> Board
        ensures { result ≡ cleared_events self }
    {
        self.with_hire(self.hire.with_events(Events::none()))
    }

    fn clear_statistics(self) -> Board
        ensures { result ≡ cleared_statistics self }
    {
        let fresh = Statistics::cleared_at(self.pack.clock.seconds);
        self.with_hire(self.hire.with_statistics(fresh))
    }

    fn marked(self, query: Query) -> Board
        ensures { result ≡ marked_by self query }
    {
        if query.marks() {
            return self.with_hire(self.hire.with_events(self.hire.events.sent()));
        }
        self
    }
}
