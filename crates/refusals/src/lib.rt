// Why a call is refused, and the number that its caller gets: document 01's table, and what document 02 adds to it.
#![tactic(auto)]

ghost use Rattle.std.specs.Prelude.{◌≡◌};
ghost use Rattle.refusals.specs.Refusals.{refusal_number, refusal_register, left_by, number_of, register_of};

#[derive(Clone, Copy)]
pub enum Refusal {
    NoRoom, // a reply buffer under 259 bytes
    Foreign, // under 4 bytes, or the first is not 0xAA
    Damaged, // the last two bytes are not the CRC of the rest
    UnknownCommand,
    WrongLength,
    WrongField, // an address, a count, an option or a padding byte against its rule
    OutOfRange(u16), // a setting outside its range: the lowest such register
    OutOfOrder, // the ordering rule among 316, 301 and 315
    FrameHeld, // an offer while a frame is held
    NoFrameHeld, // a fetch with none held
    WrongCells, // not as many cells as the cell count
    WrongCurrent, // outside -1,000,000 to 1,000,000 mA
    NoInternal, // an internal temperature of -32768
    WrongPulses, // above 400, or above 0 with no wheel sensor
    NoBoard, // a cell count outside 4 to 16
    WrongArea, // not of the length of an area
    UsedAfterUnused, // a used record after an unused one
    NeverRecorded, // an event number that the board never records
    WrongStore, // a store that is not of 512 bytes
    SpoiltStore, // a store with an edition twice, or nonzero where zero is asked
    NoEdition, // an edition that is not found, or 0
    BrokenRules, // an edition whose settings break the rules
    EditionsUsedUp, // no edition is left
    BadRecord, // a bad record of a recording
    CutRecord, // a cut last record
    WrongSlice, // not of a cabinet's twenty registers
    CutBill, // a cut last record of a bill
    PastTotal, // a total past 64 bits
    WrongRecord, // a handover's record that is not of 32 bytes
}

// What a call comes to.
pub type Outcome = Result<(), Refusal>;

// 0 where it is done.
pub fn number_of(outcome: Outcome) -> u8
    ensures { result ≡ number_of outcome }
{
    match outcome {
        Ok(()) => 0,
        Err(refusal) => refusal.number(),
    }
}

// The register of a 44; 0 of every other.
pub fn register_of(outcome: Outcome) -> u16
    ensures { result ≡ register_of outcome }
{
    match outcome {
        Ok(()) => 0,
        Err(refusal) => refusal.register(),
    }
}

impl Refusal {
    pub fn number(self) -> u8
        ensures { result ≡ refusal_number self }
    {
        match self {
            Refusal::NoRoom => 1,
            Refusal::Foreign => 2,
            Refusal::Damaged => 3,
            Refusal::UnknownCommand => 41,
            Refusal::WrongLength => 42,
            Refusal::WrongField => 43,
            Refusal::OutOfRange(_) => 44,
            Refusal::OutOfOrder => 45,
            Refusal::FrameHeld => 6,
            Refusal::NoFrameHeld => 7,
            Refusal::WrongCells => 11,
            Refusal::WrongCurrent => 12,
            Refusal::NoInternal => 13,
            Refusal::WrongPulses => 14,
            Refusal::NoBoard => 21,
            Refusal::WrongArea => 31,
            Refusal::UsedAfterUnused => 32,
            Refusal::NeverRecorded => 33,
            Refusal::WrongStore => 51,
            Refusal::SpoiltStore => 52,
            Refusal::NoEdition => 53,
            Refusal::BrokenRules => 54,
            Refusal::EditionsUsedUp => 55,
            Refusal::BadRecord => 61,
            Refusal::CutRecord => 62,
            Refusal::WrongSlice => 71,
            Refusal::CutBill => 81,
            Refusal::PastTotal => 82,
            Refusal::WrongRecord => 83,
        }
    }

    fn register(self) -> u16
        ensures { result ≡ refusal_register self }
    {
        match self {
            Refusal::OutOfRange(register) => register,
            _ => 0,
        }
    }

    // The error of the NACK that it leaves in a lent reply buffer; zeros alone where there is none.
    pub fn leaves(self) -> Option<u8>
        ensures { result ≡ left_by self }
    {
        match self {
            Refusal::Damaged => Some(0x01),
            Refusal::UnknownCommand
            | Refusal::WrongLength
            | Refusal::WrongField
            | Refusal::OutOfRange(_)
            | Refusal::OutOfOrder => Some(0x00),
            _ => None,
        }
    }
}
