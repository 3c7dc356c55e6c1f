// The seven conditions that the board guards against: what holds, what recovers, what is latched and for how long, which sensors
// are remembered meanwhile, and which switches and events each names.
#![tactic(auto)]

ghost use Rattle.std.specs.Prelude.{◌≡◌, pos, neg_ℤ, ◌+ℤ◌, ◌-ℤ◌, ◌*ℤ◌};
ghost use Prim.Native.Nat.{◌*◌, ◌-◌};
ghost use Rattle.guard.specs.Guard.{cells_low_enough, hot, cool, cold, mild, sensor_hot, with_connected, remembered_cool, while_latched, external_cold, externals_mild};
ghost use Rattle.guard.specs.Guard.{drawn_too_much, fed_too_much, holds_of, wait_of, waits_of, recovers_of, latched_of, no_guard, guard_of};
ghost use Rattle.guard.specs.Table.{is, charge_off, discharge_off, faulty, latch_event, recovery_event, event_of};

use cells::Extremes;
use readings::Readings;
use settings::Settings;

// Document 01's table, a row each.
#[derive(Clone, Copy)]
pub enum Condition {
    UV,
    OV,
    OT,
    DOC,
    COC,
    ROC,
    LT,
}

// A yes or no for each condition: that it holds, that it recovers, or that it is latched.
#[repr(C)]
#[derive(Clone, Copy, Default, PartialEq, Eq)]
pub struct Conditions {
    pub uv: bool,
    pub ov: bool,
    pub ot: bool,
    pub doc: bool,
    pub coc: bool,
    pub roc: bool,
    pub lt: bool,
}

// The ticks that are left to wait.
#[repr(C)]
#[derive(Clone, Copy, Default)]
pub struct Waits {
    pub doc: u32,
    pub coc: u32,
    pub roc: u32,
}

// The numbers of a condition's events.
#[derive(Clone, Copy)]
pub struct Numbers {
    pub latching: u8,
    pub recovery: u8,
}

// Which externals were connected at any tick since OT latched; none while it is not latched. The internal sensor always is.
#[repr(C)]
#[derive(Clone, Copy, Default)]
pub struct Remembered {
    pub external1: bool,
    pub external2: bool,
}

#[repr(C)]
#[derive(Clone, Copy, Default)]
pub struct Guard {
    pub latched: Conditions,
    pub waits: Waits,
    pub remembered: Remembered,
}

impl Guard {
    // As before the first tick.
    pub fn none() -> Guard
        ensures { result ≡ no_guard }
    {
        Guard::default()
    }

    // A tick later.
    #[tactic(auto, unfolding(crate::specs::Guard::guard_of))]
    pub fn next(self, settings: Settings, readings: Readings, extremes: Extremes) -> Guard
        ensures { result ≡ guard_of self settings readings extremes }
    {
        let holds = holding(settings, readings, extremes);
        let waits = self.waits.next(settings, holds);
        let remembered = self.remembered.with_connected(readings);
        let recovers = recovering(settings, readings, extremes, waits, remembered);
        let latched = self.latched.next(holds, recovers);
        Guard {
            latched,
            waits,
            remembered: remembered.while_latched(latched.ot),
        }
    }
}

impl Conditions {
    // One condition's yes or no.
    #[tactic(auto, unfolding(crate::specs::Table::is))]
    pub fn of(self, condition: Condition) -> bool
        ensures { result ≡ is self condition }
    {
        match condition {
            Condition::UV => self.uv,
            Condition::OV => self.ov,
            Condition::OT => self.ot,
            Condition::DOC => self.doc,
            Condition::COC => self.coc,
            Condition::ROC => self.roc,
            Condition::LT => self.lt,
        }
    }

    // A latched condition turns the charge switch off.
    #[tactic(auto, unfolding(crate::specs::Table::charge_off))]
    pub fn charge_off(self) -> bool
        ensures { result ≡ charge_off self }
    {
        self.ov | self.ot | self.coc | self.lt
    }

    // A latched condition turns the discharge switch off.
    #[tactic(auto, unfolding(crate::specs::Table::discharge_off))]
    pub fn discharge_off(self) -> bool
        ensures { result ≡ discharge_off self }
    {
        self.uv | self.ot | self.doc | self.roc
    }

    // Any condition but LT is latched.
    #[tactic(auto, unfolding(crate::specs::Table::faulty))]
    pub fn is_faulty(self) -> bool
        ensures { result ≡ faulty self }
    {
        self.uv | self.ov | self.ot | self.doc | self.coc | self.roc
    }

    // The number of the event that a condition records when the latches go from these to `after`; 0 for none.
    // A plain number: the record of events holds numbers, of which 0 is no event's.
    #[tactic(auto, unfolding(crate::specs::Table::event_of))]
    pub fn event(self, after: Conditions, condition: Condition) -> u8
        ensures { result ≡ event_of self after condition }
    {
        let was = self.of(condition);
        let now = after.of(condition);
        let events = events_of(condition);
        if now & !was {
            return events.latching;
        }
        if was & !now {
            return events.recovery;
        }
        0
    }

    // Each latching when it holds and recovering when latched and its recovery holds.
    #[tactic(auto, unfolding(crate::specs::Guard::latched_of))]
    fn next(self, holds: Conditions, recovers: Conditions) -> Conditions
        ensures { result ≡ latched_of self holds recovers }
    {
        Conditions {
            uv: holds.uv | (self.uv & !recovers.uv),
            ov: holds.ov | (self.ov & !recovers.ov),
            ot: holds.ot | (self.ot & !recovers.ot),
            doc: holds.doc | (self.doc & !recovers.doc),
            coc: holds.coc | (self.coc & !recovers.coc),
            roc: holds.roc | (self.roc & !recovers.roc),
            lt: holds.lt | (self.lt & !recovers.lt),
        }
    }
}

impl Waits {
    #[tactic(auto, unfolding(crate::specs::Guard::waits_of))]
    fn next(self, settings: Settings, holds: Conditions) -> Waits
        ensures { result ≡ waits_of settings holds self }
    {
        Waits {
            doc: wait_left(settings, holds.doc, self.doc),
            coc: wait_left(settings, holds.coc, self.coc),
            roc: wait_left(settings, holds.roc, self.roc),
        }
    }
}

impl Remembered {
    // With those that are connected at this tick.
    fn with_connected(self, readings: Readings) -> Remembered
        ensures { result ≡ with_connected self readings }
    {
        Remembered {
            external1: readings::is_connected(readings.external1) | self.external1,
            external2: readings::is_connected(readings.external2) | self.external2,
        }
    }

    // Emptied at recovery.
    fn while_latched(self, latched: bool) -> Remembered
        ensures { result ≡ while_latched latched self }
    {
        Remembered {
            external1: latched & self.external1,
            external2: latched & self.external2,
        }
    }
}

fn wait_left(settings: Settings, holds: bool, left: u32) -> u32
    ensures { result ≡ wait_of settings holds left }
{
    if holds {
        10 * u32::from(settings.r332)
    } else {
        left.saturating_sub(1)
    }
}

// The column 'Holds'. The three by themselves: a struct of them would only repeat each field of the board.
#[tactic(auto, unfolding(crate::specs::Guard::holds_of))]
pub fn holding(settings: Settings, readings: Readings, extremes: Extremes) -> Conditions
    ensures { result ≡ holds_of settings readings extremes }
{
    let fed = is_fed_too_much(settings, readings);
    Conditions {
        uv: u32::from(extremes.lowest) <= 10 * u32::from(settings.r316),
        ov: 10 * u32::from(settings.r315) <= u32::from(extremes.highest),
        ot: is_sensor_hot(settings, readings),
        doc: is_drawn_too_much(settings, readings),
        coc: readings.charger & fed,
        roc: !readings.charger & fed,
        lt: is_external_cold(settings, readings),
    }
}

// The column 'Recovers'; a wait is over when nothing is left of it.
#[tactic(auto, unfolding(crate::specs::Guard::recovers_of))]
pub fn recovering(
    settings: Settings,
    readings: Readings,
    extremes: Extremes,
    left: Waits,
    remembered: Remembered,
) -> Conditions
    ensures { result ≡ recovers_of settings readings extremes left remembered }
{
    Conditions {
        uv: 10 * u32::from(settings.r316) < u32::from(extremes.lowest),
        ov: are_cells_low_enough(settings, extremes),
        ot: are_remembered_cool(settings, readings, remembered),
        doc: left.doc == 0,
        coc: left.coc == 0,
        roc: left.roc == 0,
        lt: are_externals_mild(settings, readings),
    }
}

fn are_cells_low_enough(settings: Settings, extremes: Extremes) -> bool
    ensures { result ≡ cells_low_enough settings extremes }
{
    u32::from(extremes.highest) < (10 * u32::from(settings.r315)).saturating_sub(500)
}

fn is_sensor_hot(settings: Settings, readings: Readings) -> bool
    ensures { result ≡ sensor_hot settings readings }
{
    let internal = is_hot(settings, readings.internal);
    let first = readings::is_connected(readings.external1) & is_hot(settings, readings.external1);
    let second = readings::is_connected(readings.external2) & is_hot(settings, readings.external2);
    internal | (first | second)
}

fn are_remembered_cool(settings: Settings, readings: Readings, remembered: Remembered) -> bool
    ensures { result ≡ remembered_cool settings readings remembered }
{
    let one = readings::is_connected(readings.external1);
    let two = readings::is_connected(readings.external2);
    let internal = is_cool(settings, readings.internal);
    let first = !remembered.external1 | (one & is_cool(settings, readings.external1));
    let second = !remembered.external2 | (two & is_cool(settings, readings.external2));
    internal & (first & second)
}

fn is_external_cold(settings: Settings, readings: Readings) -> bool
    ensures { result ≡ external_cold settings readings }
{
    let first = readings::is_connected(readings.external1) & is_cold(settings, readings.external1);
    let second = readings::is_connected(readings.external2) & is_cold(settings, readings.external2);
    first | second
}

fn are_externals_mild(settings: Settings, readings: Readings) -> bool
    ensures { result ≡ externals_mild settings readings }
{
    let one = readings::is_connected(readings.external1);
    let two = readings::is_connected(readings.external2);
    let first = !one | is_mild(settings, readings.external1);
    let second = !two | is_mild(settings, readings.external2);
    (one | two) & (first & second)
}

// The table's four tests of a temperature, each of its own setting, side and distance.

fn is_hot(settings: Settings, t: i16) -> bool
    ensures { result ≡ hot settings t }
{
    10 * i32::from(settings.r319) <= i32::from(t)
}

fn is_cool(settings: Settings, t: i16) -> bool
    ensures { result ≡ cool settings t }
{
    i32::from(t) < 10 * i32::from(settings.r319) - 50
}

fn is_cold(settings: Settings, t: i16) -> bool
    ensures { result ≡ cold settings t }
{
    i32::from(t) <= 10 * i32::from(settings.r320)
}

fn is_mild(settings: Settings, t: i16) -> bool
    ensures { result ≡ mild settings t }
{
    10 * i32::from(settings.r320) + 50 < i32::from(t)
}

fn is_drawn_too_much(settings: Settings, readings: Readings) -> bool
    ensures { result ≡ drawn_too_much settings readings }
{
    readings.current <= -1000 * i32::from(settings.r317)
}

fn is_fed_too_much(settings: Settings, readings: Readings) -> bool
    ensures { result ≡ fed_too_much settings readings }
{
    1000 * i32::from(settings.r318) <= readings.current
}

// The table's events: at latching, at recovery.
#[tactic(auto, unfolding(crate::specs::Table::latch_event, crate::specs::Table::recovery_event))]
fn events_of(condition: Condition) -> Numbers
    ensures { (result.latching ≡ latch_event condition) × (result.recovery ≡ recovery_event condition) }
{
    match condition {
        Condition::UV => Numbers {
            latching: 0x02,
            recovery: 0x7B,
        },
        Condition::OV => Numbers {
            latching: 0x03,
            recovery: 0x79,
        },
        Condition::OT => Numbers {
            latching: 0x04,
            recovery: 0x73,
        },
        Condition::DOC => Numbers {
            latching: 0x05,
            recovery: 0x77,
        },
        Condition::COC => Numbers {
            latching: 0x06,
            recovery: 0x76,
        },
        Condition::ROC => Numbers {
            latching: 0x07,
            recovery: 0x78,
        },
        Condition::LT => Numbers {
            latching: 0x37,
            recovery: 0x74,
        },
    }
}
