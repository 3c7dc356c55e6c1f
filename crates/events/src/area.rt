// Events in the pack's memory: the kept ones as records of four bytes in a lent area, and a list from such an area.
ghost use Rattle.std.specs.Prelude.{◌≡◌, ◌≤◌, ◌<◌, length, drop};
ghost use Rattle.laws.specs.History.{any};
ghost use Rattle.refusals.specs.Refusals.{first};
ghost use Rattle.events.specs.Events.{capacity, placed};
ghost use Rattle.events.specs.Area.{used, saved_of, Saves, records_in, is_recorded, never_recorded, load_rows, list_of, events_in, load_of};

use crate::{AREA, CAPACITY, Event, Events};
use numbers::{low_first_32_or, put_low_first_32};
use refusals::Refusal;

// How many bytes the area had when 48 events were kept; such an area is still loaded.
const OLD_AREA: usize = 192;

impl Events {
    // Every record of the area; nothing written where it is refused. Nothing is marked.
    pub fn save(self, area: &mut [u8]) -> Result<(), Refusal>
        ensures { Saves self area.old result area.new }
    {
        if area.len() != AREA {
            return Err(Refusal::WrongArea);
        }
        for i in 0..CAPACITY {
            put_low_first_32(area, 4 * i, self.record_at(i).bytes);
        }
        Ok(())
    }

    // The events of the area, all of them sent.
    #[tactic(auto, unfolding(crate::specs::Area::load_of))]
    pub fn load(area: &[u8]) -> Result<Events, Refusal>
        ensures { result ≡ load_of area.now }
    {
        judged(area)?;
        Ok(list_in(area))
    }

    // The i-th record of a saved list: a kept event, or none.
    fn record_at(self, i: usize) -> Event
        requires { i < capacity }
        ensures { result ≡ placed (saved_of self) i }
    {
        if i < (self.kept_count() as usize) {
            return self.kept_at(i as u16);
        }
        Event { bytes: 0xFFFFFFFF }
    }
}

impl Event {
    // All four bytes 0xFF are no event.
    fn is_used(self) -> bool
        ensures { result ≡ used self }
    {
        self.bytes != 0xFFFFFFFF
    }

    // A used record with an event number that the board never records.
    fn is_never_recorded(self) -> bool
        ensures { result ≡ never_recorded self }
    {
        self.is_used() & !is_recorded(self.number())
    }
}

// The table's numbers, at latching and at recovery, and the charger's two.
#[tactic(auto, unfolding(crate::specs::Area::is_recorded))]
fn is_recorded(number: u8) -> bool
    ensures { result ≡ is_recorded number }
{
    matches!(
        number,
        0x02 | 0x7B
            | 0x03
            | 0x79
            | 0x04
            | 0x73
            | 0x05
            | 0x77
            | 0x06
            | 0x76
            | 0x07
            | 0x78
            | 0x37
            | 0x74
            | 0x64
            | 0x65
    )
}

// The i-th record of an area; past the end 0xFF: an old area has unused records after its own.
fn record_in(area: &[u8], i: usize) -> Event
    requires { i < capacity }
    ensures { result ≡ placed (records_in area.now) i }
{
    let at = 4 * i;
    Event {
        bytes: low_first_32_or(area, at, 0xFF),
    }
}

// How many records there are before the first unused one.
fn used_count(area: &[u8]) -> usize
    ensures { (result ≡ length (events_in area.now)) × (result ≤ capacity) }
{
    for i in 0..CAPACITY {
        if !record_in(area, i).is_used() {
            return i;
        }
    }
    CAPACITY
}

// Is one of the records used, from a place on?
fn is_used_from(area: &[u8], from: usize) -> bool
    requires { from ≤ capacity }
    ensures { result ≡ any used (drop from (records_in area.now)) }
{
    for i in from..CAPACITY {
        if record_in(area, i).is_used() {
            return true;
        }
    }
    false
}

// Has one of the records an event number that the board never records?
fn has_never_recorded(area: &[u8]) -> bool
    ensures { result ≡ any never_recorded (records_in area.now) }
{
    for i in 0..CAPACITY {
        if record_in(area, i).is_never_recorded() {
            return true;
        }
    }
    false
}

// The first of the rows that applies.
fn judged(area: &[u8]) -> Result<(), Refusal>
    ensures { result ≡ first (load_rows area.now) }
{
    if (area.len() != AREA) & (area.len() != OLD_AREA) {
        return Err(Refusal::WrongArea);
    }
    if is_used_from(area, used_count(area)) {
        return Err(Refusal::UsedAfterUnused);
    }
    if has_never_recorded(area) {
        return Err(Refusal::NeverRecorded);
    }
    Ok(())
}

// The used records in the last places, none of them new.
fn list_in(area: &[u8]) -> Events
    ensures { result ≡ list_of (events_in area.now) }
{
    let count = used_count(area);
    let mut list = [Event { bytes: 0 }; CAPACITY];
    for i in 0..count {
        list[CAPACITY - count + i] = record_in(area, i);
    }
    Events {
        list,
        kept: count as u8,
        unsent: 0,
    }
}
