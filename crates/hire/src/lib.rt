// The hire: what one rider did and saw. A handover makes a new one, so nothing in it outlives the rider.
#![tactic(auto)]

mod registers;
mod tick;

ghost use Rattle.std.specs.Prelude.{◌≡◌};
ghost use Rattle.hire.specs.Hire.{new_hire, with_events, with_statistics, with_receiver};

use cells::Extremes;
use events::Events;
use live::Live;
use readings::Readings;
use receiver::Receiver;
use statistics::Statistics;
pub use tick::{EVENTS, events_of};

// What the last tick read, as it was read.
#[repr(C)]
#[derive(Clone, Copy)]
pub struct Sensed {
    pub readings: Readings,
    pub cells: [u16; 16], // 0.1 mV
    pub extremes: Extremes,
    pub live: Live,
}

#[repr(C)]
#[derive(Clone, Copy)]
pub struct Hire {
    pub sensed: Sensed,
    pub window: [u16; 10], // the pulses of the last ten ticks, the latest last
    pub events: Events,
    pub statistics: Statistics,
    pub status: u16, // register 50; its number, as C holds it
    pub decision: u16, // register 51
    pub balancing: u16, // register 52
    pub charge: bool, // the switches
    pub discharge: bool,
    pub receiver: Receiver, // what has come of a frame on the raw line
}

impl Hire {
    // Everything at its start value; only the lifetime enters, as that of the clear.
    #[tactic(auto, unfolding(crate::specs::Hire::new_hire))]
    pub fn new(lifetime: u32) -> Hire
        ensures { result ≡ new_hire lifetime }
    {
        let sensed = Sensed {
            readings: Readings::none(),
            cells: [0; 16],
            extremes: Extremes {
                lowest: 0,
                highest: 0,
            },
            live: Live::none(),
        };
        Hire {
            sensed,
            window: [0; 10],
            events: Events::none(),
            statistics: Statistics::cleared_at(lifetime),
            status: 0x97,
            decision: 0,
            balancing: 0,
            charge: false,
            discharge: false,
            receiver: Receiver::none(),
        }
    }

    // One part anew, and the rest as it was.

    pub fn with_events(self, events: Events) -> Hire
        ensures { result ≡ with_events self events }
    {
        let mut hire = self;
        hire.events = events;
        hire
    }

    pub fn with_statistics(self, statistics: Statistics) -> Hire
        ensures { result ≡ with_statistics self statistics }
    {
        let mut hire = self;
        hire.statistics = statistics;
        hire
    }

    pub fn with_receiver(self, receiver: Receiver) -> Hire
        ensures { result ≡ with_receiver self receiver }
    {
        let mut hire = self;
        hire.receiver = receiver;
        hire
    }
}
