// A scale, and where a value stands on it. It stands apart because a function bears its name.
ghost use Rattle.std.specs.Prelude.{◌≡◌};
ghost use Rattle.drawing.specs.Heights.{place_of};

use crate::share::share;

// Heights grow downwards: `high` is at 0, and what lies `span` below it at 1000.
#[derive(Clone, Copy)]
pub struct Scale {
    pub high: u64,
    pub span: u64,
}

impl Scale {
    // How far down a value stands, in thousandths of the height.
    pub fn place(self, value: u32) -> u16
        ensures { result ≡ place_of self value }
    {
        share(self.high.saturating_sub(u64::from(value)), self.span, 1000) as u16
    }
}
