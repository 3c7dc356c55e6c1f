// Where things stand in a picture of columns: heights on a scale, the outline of a band, the runs of a bit, and the marks of the time
// axis. It knows no board, and of a page the letters of a path alone. All numbers are unsigned: a reading that may be negative is lifted
// by whoever reads it. A text that has no room is not put at all, and the place stays.
#![tactic(auto)]

ghost use Rattle.std.specs.Prelude.{◌≡◌};
ghost use Rattle.drawing.specs.Heights.{scale_of, open_scale_of};

mod band;
mod heights;
mod marks;
mod room;
mod runs;
mod share;

pub use band::put_band;
use columns::Band;
pub use heights::Scale;
pub use marks::{has_label, mark_place, mark_step, put_label};
pub use runs::{any_set, put_runs};

// From the lesser of the lower limit and the lowest reading to the greater of the upper limit and the highest, with a pad at both ends in
// which a line of text has room.
#[tactic(auto, unfolding(crate::specs::Heights::scale_of))]
pub fn scale(limits: Band, readings: Band, height: u32) -> Scale
    ensures { result ≡ scale_of limits readings height }
{
    let low = u64::from(limits.lowest.min(readings.lowest));
    let high = u64::from(limits.highest.max(readings.highest));
    let between = high.saturating_sub(low);
    let pad = between * 14 / (u64::from(height.max(29)) - 28) + 1;
    Scale {
        high: high + pad,
        span: between + 2 * pad,
    }
}

// From 0 to the highest, or to `least` where this is more, with no pad.
#[tactic(auto, unfolding(crate::specs::Heights::open_scale_of))]
pub fn open_scale(highest: u32, least: u32) -> Scale
    ensures { result ≡ open_scale_of highest least }
{
    let most = u64::from(least.max(highest));
    Scale {
        high: most,
        span: most,
    }
}
