// The board of one pack: a state that goes in by value and comes back. It takes a tick every 100 ms, a frame for each request,
// or the bytes of the raw line as they come, and a handover between two riders; its events are saved and loaded, a partner's cabinet reads its
// registers, its settings are kept by hire class and recalled; what it shows can be read at any time.
#![tactic(auto)]

mod area;
mod frame;
mod line;
mod partner;
mod shown;
mod store;
mod tick;

ghost use Rattle.std.specs.Prelude.{◌≡◌, length};
ghost use Rattle.board.specs.State.{with_hire, with_settings};
ghost use Rattle.board.specs.Calls.{handover};
ghost use Rattle.board.specs.Handover.{record_for};
ghost use Rattle.board.specs.Promises.{Starts, Leaves};

use desk::Record;
use hire::Hire;
use pack::Pack;
use refusals::Outcome;
use settings::Settings;

#[repr(C)]
#[derive(Clone, Copy)]
pub struct Board {
    pub pack: Pack, // all that a handover keeps
    pub hire: Hire, // what one rider did and saw
}

// What a call gives back: what it came to, and the board after it, which comes back after a refusal too.
#[derive(Clone, Copy)]
pub struct Answer {
    pub outcome: Outcome,
    pub board: Board,
}

// What an offer gives back: what it came to, how many of its bytes were taken (a number of every call, as demand 2 compares it; 0 of one that
// is refused), and the board after it.
#[derive(Clone, Copy)]
pub struct Heard {
    pub outcome: Outcome,
    pub taken: usize,
    pub board: Board,
}

// What a keep gives back: what it came to, the new edition (a number of every call, as demand 2 compares it; 0 of one that is refused), and the
// board as it was.
#[derive(Clone, Copy)]
pub struct Stored {
    pub outcome: Outcome,
    pub edition: u32,
    pub board: Board,
}

impl Board {
    // A board with that cell count and those pulses per km; refused where it is none.
    pub fn start(cells: u8, per_km: u16) -> Answer
        ensures { Starts cells per_km result }
    {
        let pack = Pack::new(cells, per_km);
        let hire = Hire::new(0);
        Board { pack, hire }.with_outcome(pack.outcome())
    }

    // The desk's own call, between two riders: a new hire, and the pack as it was. The desk gives the pack's number and gets the record of the
    // hire that ends; where that is refused nothing is written, and no handover is done.
    pub fn handover(self, number: u32, bytes: &mut [u8]) -> Answer
        ensures { Leaves self (handover number (length bytes.old)) bytes.old result bytes.new }
    {
        let outcome = self.pack.outcome();
        if outcome.is_err() {
            return self.with_outcome(outcome);
        }
        let put = self.ended(number).put(bytes);
        let is_put = put.is_ok();
        if !is_put {
            return self.with_outcome(put);
        }
        let hire = Hire::new(self.pack.clock.seconds);
        self.with_hire(hire).with_outcome(put)
    }

    // The record of the hire as it is now.
    fn ended(self, number: u32) -> Record
        ensures { result ≡ record_for self number }
    {
        self.hire
            .statistics
            .billed(number, self.pack.per_km, self.pack.clock.seconds)
    }

    // This board, and what the call came to that gives it back.
    pub(crate) fn with_outcome(self, outcome: Outcome) -> Answer
        ensures { result ≡ record { outcome = outcome; board = self } }
    {
        Answer {
            outcome,
            board: self,
        }
    }

    // Other settings, and the rest as it was.
    pub(crate) fn with_settings(self, settings: Settings) -> Board
        ensures { result ≡ with_settings self settings }
    {
        let hire = self.hire;
        let pack = self.pack.with_settings(settings);
        Board { pack, hire }
    }

    // A new hire in the same pack.
    pub(crate) fn with_hire(self, hire: Hire) -> Board
        ensures { result ≡ with_hire self hire }
    {
        let pack = self.pack;
        Board { pack, hire }
    }
}
