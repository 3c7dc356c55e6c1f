// The reading that made a condition so, or shows that it is no more.
ghost use Rattle.std.specs.Prelude.{◌≡◌};
ghost use Rattle.signed.specs.Signed.{above, below};
ghost use Rattle.story.specs.Story.{reason, first_after, cell_reason, or_hotter, hottest_of, coldest_of, reason_of};

use crate::drawn::lifted;
use guard::Condition;
use hire::Sensed;
use readings::{Readings, is_connected};

#[derive(Clone, Copy, Default)]
pub struct Reason {
    pub place: u8, // of a cell, the first is 1; of a sensor, the board's own is 0; of a current 0
    pub value: u32, // 0.1 mV; a temperature lifted over zero; mA
}

impl Reason {
    pub fn none() -> Reason
        ensures { result ≡ reason 0 0 }
    {
        Reason::default()
    }

    #[tactic(auto, unfolding(crate::specs::Story::reason_of))]
    pub fn of(condition: Condition, sensed: Sensed) -> Reason
        ensures { result ≡ reason_of condition sensed }
    {
        match condition {
            Condition::UV => cell(sensed, sensed.extremes.lowest),
            Condition::OV => cell(sensed, sensed.extremes.highest),
            Condition::OT => hottest(sensed.readings),
            Condition::DOC => current_drawn(sensed.readings),
            Condition::COC => current_in(sensed.readings),
            Condition::ROC => current_in(sensed.readings),
            Condition::LT => coldest(sensed.readings),
        }
    }

    // Of equals the first.
    fn or_hotter(self, place: u8, external: i16) -> Reason
        ensures { result ≡ or_hotter self place external }
    {
        let value = lifted(external);
        if is_connected(external) & (self.value < value) {
            return Reason { place, value };
        }
        self
    }
}

// The first of the cells that has that value.
fn cell(sensed: Sensed, value: u16) -> Reason
    ensures { result ≡ cell_reason sensed value }
{
    Reason {
        place: first_place(sensed.cells, value),
        value: u32::from(value),
    }
}

fn first_place(cells: [u16; 16], value: u16) -> u8
    ensures { result ≡ first_after 0 value cells }
{
    for (i, cell) in cells.iter().enumerate() {
        if *cell == value {
            return i as u8 + 1;
        }
    }
    0
}

fn current_drawn(readings: Readings) -> Reason
    ensures { result ≡ reason 0 (below readings.current) }
{
    Reason {
        place: 0,
        value: signed::negative(readings.current),
    }
}

fn current_in(readings: Readings) -> Reason
    ensures { result ≡ reason 0 (above readings.current) }
{
    Reason {
        place: 0,
        value: signed::positive(readings.current),
    }
}

// Of the connected ones; of equals the first.
#[tactic(auto, unfolding(crate::specs::Story::hottest_of))]
fn hottest(readings: Readings) -> Reason
    ensures { result ≡ hottest_of readings }
{
    Reason {
        place: 0,
        value: lifted(readings.internal),
    }
    .or_hotter(1, readings.external1)
    .or_hotter(2, readings.external2)
}

// Of the externals that are connected; of equals the first.
#[tactic(auto, unfolding(crate::specs::Story::coldest_of))]
fn coldest(readings: Readings) -> Reason
    ensures { result ≡ coldest_of readings }
{
    let one = lifted(readings.external1);
    let two = lifted(readings.external2);
    let is_second = is_connected(readings.external2)
        & (!is_connected(readings.external1) | (two < one));
    if is_second {
        return Reason {
            place: 2,
            value: two,
        };
    }
    Reason {
        place: 1,
        value: one,
    }
}
