// What a write holds: its registers, how many there are, and what they make of the settings. Read from a request's bytes alone, with no length trusted.
#![tactic(auto)]

ghost use Rattle.std.specs.Prelude.{◌&&◌, ◌||◌, ◌≡◌, ◌+◌, eqb, leb};
ghost use Rattle.numbers.specs.Numbers.{be16_at};
ghost use Rattle.writes.specs.Writes.{write_command, pair_at, pairs_of, count_of, well_counted, all_settings, keeps_rules, drafted_of, written_to};

use numbers::{byte_at, high_first_16, low_first_16};
use refusals::Refusal;
use settings::{Draft, Settings, put_value};

// How a write has its registers: 0x10's block, high byte first; 0x0B's block; 0x0D's list of pairs.
#[derive(Clone, Copy)]
pub enum Form {
    Modbus,
    Block,
    List,
}

// A register that is written, and its value.
#[derive(Clone, Copy)]
pub struct Pair {
    pub at: u32,
    pub value: u16,
}

impl Form {
    // The command byte of each.
    #[tactic(auto, unfolding(crate::specs::Writes::write_command))]
    pub fn command(self) -> u8
        ensures { result ≡ write_command self }
    {
        match self {
            Form::Modbus => 0x10,
            Form::Block => 0x0B,
            Form::List => 0x0D,
        }
    }
}

// The address of 0x10, which its reply repeats.
pub fn write_address(bytes: &[u8]) -> u16
    ensures { result ≡ be16_at bytes.now 2 }
{
    high_first_16(bytes, 2)
}

// How many registers a write has by its RL or PL.
#[tactic(auto, unfolding(crate::specs::Writes::count_of))]
pub fn count_of(form: Form, bytes: &[u8]) -> u8
    ensures { result ≡ count_of form bytes.now }
{
    match form {
        Form::Modbus => byte_at(bytes, 5),
        Form::Block => (byte_at(bytes, 2) / 2).saturating_sub(1),
        Form::List => byte_at(bytes, 2) / 4,
    }
}

// A write of so many registers keeps the rules of its fields.
pub fn keeps_rules(form: Form, bytes: &[u8], count: u8) -> bool
    ensures { result ≡ keeps_rules form bytes.now count }
{
    is_counted(form, bytes, count) & are_all_settings(form, bytes, count)
}

// As many as it may have, and PL says so.
#[tactic(auto, unfolding(crate::specs::Writes::well_counted))]
fn is_counted(form: Form, bytes: &[u8], count: u8) -> bool
    ensures { result ≡ well_counted form bytes.now count }
{
    let n = u16::from(count);
    let pl = u16::from(byte_at(bytes, 2));
    match form {
        Form::Modbus => (byte_at(bytes, 4) == 0)
            & ((1 <= count) & (count <= 100))
            & (u16::from(byte_at(bytes, 6)) == 2 * n),
        Form::Block => ((1 <= count) & (count <= 100)) & (pl == 2 + 2 * n),
        Form::List => ((1 <= count) & (count <= 50)) & (pl == 4 * n),
    }
}

// Each of the first registers of a write lies in 300 to 399.
fn are_all_settings(form: Form, bytes: &[u8], count: u8) -> bool
    ensures { result ≡ all_settings (pairs_of form bytes.now count) }
{
    match form {
        Form::Modbus => is_among_settings(high_first_16(bytes, 2), count),
        Form::Block => is_among_settings(low_first_16(bytes, 3), count),
        Form::List => are_listed_settings(bytes, count),
    }
}

// A block goes up by one: it lies there where its first and its last do, or where it has none.
fn is_among_settings(first: u16, count: u8) -> bool
    ensures { result ≡ (eqb count 0 || (leb 300 first && leb (first + count) 400)) }
{
    let end = u32::from(first) + u32::from(count);
    (count == 0) | ((300 <= first) & (end <= 400))
}

fn are_listed_settings(bytes: &[u8], count: u8) -> bool
    ensures { result ≡ all_settings (pairs_of Form.List bytes.now count) }
{
    let mut good = true;
    for i in 0..usize::from(count) {
        let at = low_first_16(bytes, 3 + 4 * i);
        good = good & ((300 <= at) & (at <= 399));
    }
    good
}

// A write to settings that stand, judged whole: the settings that it leaves.
pub fn written(settings: Settings, bytes: &[u8], form: Form, count: u8) -> Result<Settings, Refusal>
    ensures { result ≡ written_to settings (pairs_of form bytes.now count) }
{
    drafted(settings.draft(), bytes, form, count).finish()
}

// The registers, put into a draft one by one.
fn drafted(draft: Draft, bytes: &[u8], form: Form, count: u8) -> Draft
    ensures { result ≡ drafted_of draft (pairs_of form bytes.now count) }
{
    let mut values = draft.values;
    for i in 0..u16::from(count) {
        let pair = pair_at(form, bytes, i);
        put_value(&mut values, pair.at, pair.value);
    }
    Draft { values }
}

// The i-th register of a write.
#[tactic(auto, unfolding(crate::specs::Writes::pair_at))]
fn pair_at(form: Form, bytes: &[u8], i: u16) -> Pair
    ensures { result ≡ pair_at form bytes.now i }
{
    let n = usize::from(i);
    match form {
        Form::Modbus => pair_of(high_first_16(bytes, 2), i, high_first_16(bytes, 7 + 2 * n)),
        Form::Block => pair_of(low_first_16(bytes, 3), i, low_first_16(bytes, 5 + 2 * n)),
        Form::List => pair_of(
            low_first_16(bytes, 3 + 4 * n),
            0,
            low_first_16(bytes, 5 + 4 * n),
        ),
    }
}

fn pair_of(first: u16, i: u16, value: u16) -> Pair
    ensures { result ≡ record { at = first + i; value = value } }
{
    Pair {
        at: u32::from(first) + u32::from(i),
        value,
    }
}
