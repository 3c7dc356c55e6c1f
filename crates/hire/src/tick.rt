// The steps of a tick that touch a hire, in document 01's order. What they need of the pack is given.
ghost use Rattle.std.specs.Prelude.{◌≡◌, cond, pos, negsuc};
ghost use Rattle.std.specs.Int.Signed.{lt_z};
ghost use Rattle.hire.specs.Tick.{readings_of, speed_and_distance_of, charger_event, events_of, recorded_of, record_of};
ghost use Rattle.hire.specs.Tick.{status_for, status_of, balancing_of, statistics_of, switches_of};

use crate::{Hire, Sensed};
use cells::Extremes;
use events::Events;
use guard::{Condition, Conditions};
use live::Live;
use readings::Readings;

// A tick records no more: the charger's event, and one of each condition.
pub const EVENTS: usize = 8;

impl Hire {
    #[tactic(auto, unfolding(crate::specs::Tick::readings_of))]
    pub fn keep_readings(self, cells: &[u16], readings: Readings, extremes: Extremes) -> Hire
        ensures { result ≡ readings_of self cells.now readings extremes }
    {
        let kept = cells::kept(cells);
        let live = Live::measured(cells::sum(cells), readings.current);
        let sensed = Sensed {
            readings,
            cells: kept,
            extremes,
            live,
        };
        let mut hire = self;
        hire.sensed = sensed;
        hire
    }

    #[tactic(auto, unfolding(crate::specs::Tick::speed_and_distance_of))]
    pub fn ride(self, pulses: u16) -> Hire
        ensures { result ≡ speed_and_distance_of self pulses }
    {
        let window = self.window;
        let window = live::next_window(window, pulses);
        let statistics = self.statistics.ridden(pulses);
        let mut hire = self;
        hire.window = window;
        hire.statistics = statistics;
        hire
    }

    // The events of a tick, in their order; 0 is none.
    pub fn record(self, seconds: u32, numbers: [u8; EVENTS]) -> Hire
        ensures { result ≡ record_of self seconds numbers }
    {
        let mut events = self.events;
        for number in numbers {
            events = recorded(events, seconds, number);
        }
        self.with_events(events)
    }

    #[tactic(auto, unfolding(crate::specs::Tick::status_of))]
    pub fn set_status(self, latched: Conditions, readings: Readings) -> Hire
        ensures { result ≡ status_of self latched readings }
    {
        let status = status_for(latched, readings);
        let mut hire = self;
        hire.status = status;
        hire
    }

    // With early balancing from r303, a disbalance of r308, and OV latched or not.
    #[tactic(auto, unfolding(crate::specs::Tick::balancing_of))]
    pub fn balance(self, cells: &[u16], r303: u16, r308: u16, ov: bool) -> Hire
        ensures { result ≡ balancing_of self cells.now r303 r308 ov }
    {
        let decision = cells::decision(cells, r303, r308);
        let balances = (self.status == 0x91) | (self.status == 0x96) | ov;
        let balancing = if_so(balances, decision);
        let mut hire = self;
        hire.decision = decision;
        hire.balancing = balancing;
        hire
    }

    // The latches and the status as they were before the tick, and the latches after it.
    #[tactic(auto, unfolding(crate::specs::Tick::statistics_of))]
    pub fn count(
        self,
        readings: Readings,
        extremes: Extremes,
        before: Conditions,
        after: Conditions,
        status: u16,
    ) -> Hire
        ensures { result ≡ statistics_of self readings extremes before after status }
    {
        let entered = (self.status == 0x91) & (status != 0x91);
        self.with_statistics(
            self.statistics
                .counted(readings, extremes, before, after, entered),
        )
    }

    // With the ignition setting r334.
    #[tactic(auto, unfolding(crate::specs::Tick::switches_of))]
    pub fn switch(self, latched: Conditions, r334: u16, readings: Readings) -> Hire
        ensures { result ≡ switches_of self latched r334 readings }
    {
        let ready = (r334 == 0) | readings.ignition;
        let charge = readings.charger & !latched.charge_off();
        let discharge = !latched.discharge_off() & ready;
        let mut hire = self;
        hire.charge = charge;
        hire.discharge = discharge;
        hire
    }
}

// The events of a tick in the order in which they are recorded, 0 for none (Tick.events_of, and the account of a life over it, count by these
// numbers): the charger's, which was present at the tick before or is
// now, and the conditions' in the table's order, where the latches were `before` and are `after`.
#[tactic(auto, unfolding(crate::specs::Tick::events_of))]
pub fn events_of(was: bool, is: bool, before: Conditions, after: Conditions) -> [u8; EVENTS]
    ensures { result ≡ events_of was is before after }
{
    let charger = charger_event(was, is);
    let uv = before.event(after, Condition::UV);
    let ov = before.event(after, Condition::OV);
    let ot = before.event(after, Condition::OT);
    let doc = before.event(after, Condition::DOC);
    let coc = before.event(after, Condition::COC);
    let roc = before.event(after, Condition::ROC);
    let lt = before.event(after, Condition::LT);
    [charger, uv, ov, ot, doc, coc, roc, lt]
}

fn charger_event(was: bool, is: bool) -> u8
    ensures { result ≡ charger_event was is }
{
    if was == is {
        return 0;
    }
    if is { 0x64 } else { 0x65 }
}

// The number 0 records none.
fn recorded(events: Events, seconds: u32, number: u8) -> Events
    ensures { result ≡ recorded_of seconds events number }
{
    if number == 0 {
        return events;
    }
    events.add(seconds, number)
}

#[tactic(auto, unfolding(crate::specs::Tick::status_for))]
fn status_for(latched: Conditions, readings: Readings) -> u16
    ensures { result ≡ status_for latched readings }
{
    let above = is_above_800(readings.current);
    if latched.is_faulty() {
        return 0x9B;
    }
    if readings.charger & above {
        return 0x91;
    }
    if !readings.charger & above {
        return 0x96;
    }
    if is_below_minus_800(readings.current) {
        0x93
    } else {
        0x97
    }
}

fn is_above_800(current: i32) -> bool
    ensures { result ≡ lt_z (pos 800) current }
{
    800 < current
}

fn is_below_minus_800(current: i32) -> bool
    ensures { result ≡ lt_z current (negsuc 799) }
{
    current < -800
}

fn if_so(yes: bool, bits: u16) -> u16
    ensures { result ≡ cond yes bits 0 }
{
    if yes { bits } else { 0 }
}
