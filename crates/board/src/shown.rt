// What the board shows: registers by number, switches, bits, events and lifetime.
ghost use Rattle.std.specs.Prelude.{◌≡◌};
ghost use Rattle.board.specs.Promises.{ShowsRegister, ShowsCharge, ShowsDischarge, ShowsDecision, ShowsBalancing, ShowsLifetime, CountsKept, ShowsKept, CountsNew, ShowsNew};

use crate::Board;
use events::Event;

impl Board {
    pub fn register(self, at: u16) -> Option<u16>
        ensures { ShowsRegister self at result }
    {
        answers::register(self.pack, self.hire, at)
    }

    pub fn charge_switch(self) -> bool
        ensures { ShowsCharge self result }
    {
        self.hire.charge
    }

    pub fn discharge_switch(self) -> bool
        ensures { ShowsDischarge self result }
    {
        self.hire.discharge
    }

    // Register 51: which cells need balancing, cell 1 the lowest bit.
    pub fn decision_bits(self) -> u16
        ensures { ShowsDecision self result }
    {
        self.hire.decision
    }

    // Register 52: which cells are balanced.
    pub fn balancing_bits(self) -> u16
        ensures { ShowsBalancing self result }
    {
        self.hire.balancing
    }

    // In seconds.
    pub fn lifetime(self) -> u32
        ensures { ShowsLifetime self result }
    {
        self.pack.clock.seconds
    }

    // How many events are kept, and the n-th of them, oldest first.
    pub fn kept_count(self) -> u8
        ensures { CountsKept self result }
    {
        self.hire.events.kept_count()
    }

    pub fn kept_event(self, n: u16) -> Event
        ensures { ShowsKept self n result }
    {
        self.hire.events.kept_at(n)
    }

    // How many no 0x11 has sent yet, and the n-th of them, oldest first.
    pub fn new_count(self) -> u8
        ensures { CountsNew self result }
    {
        self.hire.events.new_count()
    }

    pub fn new_event(self, n: u16) -> Event
        ensures { ShowsNew self n result }
    {
        self.hire.events.new_at(n)
    }
}
