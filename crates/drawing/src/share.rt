// A part of a whole, in so many equal parts.
ghost use Rattle.std.specs.Prelude.{◌≡◌, ◌≤◌};
ghost use Rattle.drawing.specs.Heights.{share_of};

// No whole is longer: as ticks it is three million years.
pub(crate) const MOST: u64 = 1 << 50;

// Rounded down, and never more than all parts; a whole of 0 is read as 1.
#[tactic(auto, unfolding(crate::specs::Heights::share_of))]
pub(crate) fn share(part: u64, whole: u64, parts: u64) -> u64
    requires { parts ≤ 10000 }
    ensures { (result ≡ share_of part whole parts) × (result ≤ parts) }
{
    let all = whole.min(MOST).max(1);
    part.min(all) * parts / all
}
