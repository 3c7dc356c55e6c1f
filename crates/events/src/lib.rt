// The events that the board keeps: the latest, oldest first, and which of them are new.
#![tactic(auto)]

mod area;

ghost use Rattle.std.specs.Prelude.{cond, ◌≡◌, ◌+◌, ◌-◌, ◌≤◌, min, eqb};
ghost use Rattle.events.specs.Events.{capacity, event_at, time_of, number_of, kept_count, new_count, latest, kept_of, new_of, no_events, add_of, sent_of, placed, event_longs};
ghost use Rattle.laws.specs.Row.{row};
ghost use Rattle.numbers.specs.Numbers.{half_at};

use numbers::{WORDS, words};

// How many events are kept.
pub const CAPACITY: usize = 62;

// How many bytes the area has that they are saved into: a record of four for each.
pub const AREA: usize = 4 * CAPACITY;

// As it is sent: three time bytes and the event's number, low byte first. All zeros where there is none.
#[repr(C)]
#[derive(Clone, Copy)]
pub struct Event {
    pub bytes: u32,
}

// The places that are used are the last ones: `kept` of them, of which the last `unsent` are new.
// C holds it by its fields, so the list is an array with its counts beside it.
#[repr(C)]
#[derive(Clone, Copy)]
pub struct Events {
    pub list: [Event; CAPACITY],
    pub kept: u8,
    pub unsent: u8,
}

impl Events {
    #[tactic(auto, unfolding(crate::specs::Events::no_events))]
    pub fn none() -> Events
        ensures { result ≡ no_events }
    {
        Events {
            list: [Event { bytes: 0 }; CAPACITY],
            kept: 0,
            unsent: 0,
        }
    }

    // One event more; the oldest goes where there is no place for it.
    #[tactic(auto, unfolding(crate::specs::Events::add_of, laws::specs::Fold::shifted))]
    pub fn add(self, seconds: u32, number: u8) -> Events
        ensures { result ≡ add_of self seconds number }
    {
        let mut list = self.list;
        list.copy_within(1.., 0);
        list[CAPACITY - 1] = Event::at(seconds, number);
        let kept = one_more(self.kept);
        let unsent = one_more(self.unsent);
        Events { list, kept, unsent }
    }

    // Nothing is new any more.
    #[tactic(auto, unfolding(crate::specs::Events::sent_of))]
    pub fn sent(mut self) -> Events
        ensures { result ≡ sent_of self }
    {
        self.unsent = 0;
        self
    }

    // How many are kept.
    pub fn kept_count(self) -> u8
        ensures { (result ≡ kept_count self) × (result ≤ capacity) }
    {
        self.kept.min(CAPACITY as u8)
    }

    // How many are new.
    pub fn new_count(self) -> u8
        ensures { (result ≡ new_count self) × (result ≤ capacity) }
    {
        self.kept_count().min(self.unsent)
    }

    // The n-th that is kept, from 0, oldest first; no event where there is none.
    pub fn kept_at(self, n: u16) -> Event
        ensures { result ≡ placed (kept_of self) n }
    {
        self.latest_at(self.kept_count(), n)
    }

    // The n-th that is new, from 0, oldest first; no event where there is none.
    pub fn new_at(self, n: u16) -> Event
        ensures { result ≡ placed (new_of self) n }
    {
        self.latest_at(self.new_count(), n)
    }

    // So many words of what 0x11 sends, the lifetime and then the new events, two words each; zeros after them.
    pub fn new_words(self, lifetime: u32, count: u8) -> [u16; WORDS]
        ensures { result ≡ row 127 (half_at (event_longs lifetime (new_of self))) (min 127 count) }
    {
        self.words(self.new_count(), lifetime, count)
    }

    // So many words of what 0x12 sends: the lifetime, then all that are kept.
    pub fn kept_words(self, lifetime: u32, count: u8) -> [u16; WORDS]
        ensures { result ≡ row 127 (half_at (event_longs lifetime (kept_of self))) (min 127 count) }
    {
        self.words(self.kept_count(), lifetime, count)
    }

    #[tactic(auto, unfolding(crate::specs::Events::latest))]
    fn words(self, kept: u8, lifetime: u32, count: u8) -> [u16; WORDS]
        ensures { result ≡ row 127 (half_at (event_longs lifetime (latest kept self))) (min 127 count) }
    {
        let events = &self.list[from_end(kept)..];
        words(count, |i| word_at(events, lifetime, i))
    }

    #[tactic(auto, unfolding(crate::specs::Events::latest))]
    fn latest_at(self, count: u8, n: u16) -> Event
        ensures { result ≡ placed (latest count self) n }
    {
        let at = from_end(count) + usize::from(n);
        self.list.get(at).copied().unwrap_or(Event { bytes: 0 })
    }
}

impl Event {
    // In seconds modulo 2^24.
    pub fn time(self) -> u32
        ensures { result ≡ time_of self }
    {
        self.bytes % 16777216
    }

    pub fn number(self) -> u8
        ensures { result ≡ number_of self }
    {
        (self.bytes / 16777216) as u8
    }

    fn at(seconds: u32, number: u8) -> Event
        ensures { result ≡ event_at seconds number }
    {
        Event {
            bytes: seconds % 16777216 + 16777216 * u32::from(number),
        }
    }
}

// A word of a reply: the half of a pair, the lifetime's first and then each event's.
fn word_at(events: &[Event], lifetime: u32, i: u16) -> u16
    ensures { result ≡ half_at (event_longs lifetime events.now) i }
{
    let event = events.get(usize::from((i / 2).saturating_sub(1)));
    numbers::half(
        long(
            lifetime,
            event.copied().unwrap_or(Event { bytes: 0 }),
            i / 2,
        ),
        i,
    )
}

// The lifetime first, and then the event.
fn long(lifetime: u32, event: Event, k: u16) -> u32
    ensures { result ≡ cond (eqb k 0) lifetime event.bytes }
{
    if k == 0 { lifetime } else { event.bytes }
}

fn one_more(n: u8) -> u8
    ensures { result ≡ min capacity (n + 1) }
{
    n.saturating_add(1).min(CAPACITY as u8)
}

// Where the latest `count` begin.
fn from_end(count: u8) -> usize
    ensures { (result ≡ capacity - count) × (result ≤ capacity) }
{
    CAPACITY.saturating_sub(usize::from(count))
}
