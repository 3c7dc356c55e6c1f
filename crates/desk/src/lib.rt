// What the desk gets at a handover: the record of one hire, 32 bytes, each number low byte first.
#![tactic(auto)]

ghost use Rattle.std.specs.Prelude.{◌≡◌};
ghost use Rattle.desk.specs.Desk.{record_of, Puts};

use numbers::{low_first_32, low_first_64, put_low_first_32, put_low_first_64};
use refusals::{Outcome, Refusal};

// How many bytes a record has.
pub const RECORD: usize = 32;

#[derive(Clone, Copy)]
pub struct Record {
    pub pack: u32, // the number that the desk gives
    pub seconds: u32, // since the last statistics clear or handover, as all that follows
    pub positive: u64, // the sum of positive mA
    pub negative: u64, // the sum of negative mA, as a positive number
    pub distance: u32,
    pub latchings: u32, // the sum of registers 105 to 109
}

impl Record {
    // Nothing written where there are not as many bytes as a record has.
    pub fn put(self, bytes: &mut [u8]) -> Outcome
        ensures { Puts self bytes.old result bytes.new }
    {
        if bytes.len() != RECORD {
            return Err(Refusal::WrongRecord);
        }
        put_low_first_32(bytes, 0, self.pack);
        put_low_first_32(bytes, 4, self.seconds);
        put_low_first_64(bytes, 8, self.positive);
        put_low_first_64(bytes, 16, self.negative);
        put_low_first_32(bytes, 24, self.distance);
        put_low_first_32(bytes, 28, self.latchings);
        Ok(())
    }

    // What the first 32 bytes say; one that is missing reads 0.
    #[tactic(auto, unfolding(crate::specs::Desk::record_of))]
    pub fn of(bytes: &[u8]) -> Record
        ensures { result ≡ record_of bytes.now }
    {
        Record {
            pack: low_first_32(bytes, 0),
            seconds: low_first_32(bytes, 4),
            positive: low_first_64(bytes, 8),
            negative: low_first_64(bytes, 16),
            distance: low_first_32(bytes, 24),
            latchings: low_first_32(bytes, 28),
        }
    }
}
