// What is kept of a recording for its page: what is drawn of each tick, what came and went, and the readings that made it so.
#![tactic(auto)]

ghost use Rattle.std.specs.Prelude.{◌≡◌};
ghost use Rattle.story.specs.Story.{condition_at, noted_of};

mod drawn;
mod flaw;
mod reason;

pub use drawn::{CHARGER_IDLE, CHARGING_OFF, POWER_OFF, bits, column};
pub use flaw::Flaw;
use guard::Condition;
pub use reason::Reason;
use spells::Spells;

// Seven latched conditions in the board's order, both switches, the charge switch off though the charger is there, and either external
// sensor not connected: one for each bit of a tick.
pub const KINDS: usize = 12;

// The condition of that place in the board's order, which is the number of its bit; behind the last, the last.
#[tactic(auto, unfolding(crate::specs::Story::condition_at))]
pub fn condition(place: usize) -> Condition
    ensures { result ≡ condition_at place }
{
    match place {
        0 => Condition::UV,
        1 => Condition::OV,
        2 => Condition::OT,
        3 => Condition::DOC,
        4 => Condition::COC,
        5 => Condition::ROC,
        _ => Condition::LT,
    }
}

// With a tick of that number, whose bits say what holds at it.
pub fn noted(came: [Spells; KINDS], bits: u32, tick: u64) -> [Spells; KINDS]
    ensures { result ≡ noted_of came bits tick }
{
    let mut all = came;
    let mut rest = bits;
    for spells in &mut all {
        *spells = spells.with(rest % 2 == 1, tick);
        rest /= 2;
    }
    all
}
