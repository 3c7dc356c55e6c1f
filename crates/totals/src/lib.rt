// What the records of a month come to: their count, and the exact totals of seconds, both sums and distance.
#![tactic(auto)]

ghost use Rattle.std.specs.Prelude.{cond, None, Some, ◌≡◌};
ghost use Rattle.refusals.specs.Refusals.{first};
ghost use Rattle.totals.specs.Totals.{no_totals, with_record, is_past, taken_of, cut_rows, billed_of, so_far, followed_by};

use desk::{RECORD, Record};
use refusals::{Outcome, Refusal};

#[derive(Clone, Copy)]
pub struct Totals {
    pub count: u64, // of records
    pub seconds: u64,
    pub positive: u64,
    pub negative: u64,
    pub distance: u64,
}

// What bytes come to, and the totals up to there. No `Result`: the totals are told after a refusal too.
#[derive(Clone, Copy)]
pub struct Billed {
    pub outcome: Outcome,
    pub totals: Totals,
}

impl Billed {
    // Before the first byte.
    pub fn none() -> Billed
        ensures { result ≡ so_far no_totals }
    {
        Billed {
            outcome: Ok(()),
            totals: Totals::none(),
        }
    }

    // With the bytes that follow; they are not taken where those before were refused.
    pub fn followed_by(self, bytes: &[u8]) -> Billed
        ensures { result ≡ followed_by self bytes.now }
    {
        if self.outcome.is_ok() {
            return self.totals.billed(bytes);
        }
        self
    }
}

impl Totals {
    pub fn none() -> Totals
        ensures { result ≡ no_totals }
    {
        Totals {
            count: 0,
            seconds: 0,
            positive: 0,
            negative: 0,
            distance: 0,
        }
    }

    // Whole records in a row, until one would take a total past 64 bits or the last is cut.
    pub fn billed(self, bytes: &[u8]) -> Billed
        ensures { result ≡ billed_of self bytes.now }
    {
        let mut totals = self;
        for record in bytes.chunks_exact(RECORD) {
            match totals.taken(Record::of(record)) {
                Ok(more) => totals = more,
                Err(refusal) => {
                    return Billed {
                        outcome: Err(refusal),
                        totals,
                    };
                }
            }
        }
        Billed {
            outcome: cut_outcome(bytes.len()),
            totals,
        }
    }

    // One record more; refused where a total would pass 64 bits.
    #[tactic(auto, unfolding(refusals::specs::Refusals::first, crate::specs::Totals::taken_of))]
    pub fn taken(self, hired: Record) -> Result<Totals, Refusal>
        ensures { result ≡ taken_of self hired }
    {
        self.with_record(hired).ok_or(Refusal::PastTotal)
    }

    // None where a total would pass 64 bits.
    fn with_record(self, hired: Record) -> Option<Totals>
        ensures { result ≡ cond (is_past (with_record self hired)) None (Some (with_record self hired)) }
    {
        Some(Totals {
            count: self.count.checked_add(1)?,
            seconds: self.seconds.checked_add(u64::from(hired.seconds))?,
            positive: self.positive.checked_add(hired.positive)?,
            negative: self.negative.checked_add(hired.negative)?,
            distance: self.distance.checked_add(u64::from(hired.distance))?,
        })
    }
}

// What a bill comes to after the whole records of so many bytes.
#[tactic(auto, unfolding(refusals::specs::Refusals::first))]
fn cut_outcome(bytes: usize) -> Outcome
    ensures { result ≡ first (cut_rows bytes) }
{
    if bytes % RECORD == 0 {
        Ok(())
    } else {
        Err(Refusal::CutBill)
    }
}
