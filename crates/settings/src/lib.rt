// The twelve settings: their values by register, their ranges, and a write that is taken whole or not at all.
#![tactic(auto)]

ghost use Rattle.std.specs.Prelude.{◌≡◌, ◌&&◌, ◌+◌, min};
ghost use Rattle.std.specs.Int.Signed.{le_z};
ghost use Rattle.laws.specs.Row.{row};
ghost use Rattle.settings.specs.Settings.{factory, of_kind, register_of, values_of, settings_of, meant_by, ordered};
ghost use Rattle.settings.specs.Settings.{judged_of, draft_of, Put, written_of};

use numbers::{WORDS, words};
use refusals::Refusal;

// The registers of document 01's list, by their numbers.
#[repr(C)]
#[derive(Clone, Copy)]
pub struct Settings {
    pub r301: u16, // fully discharged, mV
    pub r303: u16, // early balancing, mV
    pub r308: u16, // disbalance, mV
    pub r315: u16, // over-voltage, mV
    pub r316: u16, // under-voltage, mV
    pub r317: u16, // discharge over-current, A
    pub r318: u16, // charge over-current, A
    pub r319: u16, // over-heat, °C
    pub r320: i16, // low temperature charging, °C, signed
    pub r332: u16, // recovery, s
    pub r334: u16, // ignition
    pub r335: u16, // charger detection
}

// The kinds that a settings read asks for.
#[derive(Clone, Copy)]
pub enum Kind {
    Minimum,
    Maximum,
    Default,
    Current,
}

// A write under way: the values of registers 300 to 399 as they would stand.
#[derive(Clone, Copy)]
pub struct Draft {
    pub values: [u16; 100],
}

impl Settings {
    pub const FACTORY: Settings = Settings {
        r301: 3000,
        r303: 4000,
        r308: 15,
        r315: 4200,
        r316: 2900,
        r317: 60,
        r318: 30,
        r319: 60,
        r320: 0,
        r332: 5,
        r334: 0,
        r335: 1,
    };

    pub const MINIMUM: Settings = Settings {
        r301: 1000,
        r303: 1000,
        r308: 15,
        r315: 1200,
        r316: 800,
        r317: 1,
        r318: 1,
        r319: 20,
        r320: -40,
        r332: 1,
        r334: 0,
        r335: 1,
    };

    pub const MAXIMUM: Settings = Settings {
        r301: 3500,
        r303: 4500,
        r308: 100,
        r315: 4500,
        r316: 3500,
        r317: 750,
        r318: 750,
        r319: 90,
        r320: 10,
        r332: 30,
        r334: 6,
        r335: 7,
    };

    pub fn factory() -> Settings
        ensures { result ≡ factory }
    {
        Settings::FACTORY
    }

    // The settings of a kind, where the current ones are these.
    #[tactic(auto, unfolding(crate::specs::Settings::of_kind))]
    pub fn of_kind(self, kind: Kind) -> Settings
        ensures { result ≡ of_kind self kind }
    {
        match kind {
            Kind::Minimum => Settings::MINIMUM,
            Kind::Maximum => Settings::MAXIMUM,
            Kind::Default => Settings::FACTORY,
            Kind::Current => self,
        }
    }

    // A register's value by its number; an unlisted one reads 0.
    #[tactic(auto, unfolding(crate::specs::Settings::register_of))]
    pub fn register(self, at: u16) -> u16
        ensures { result ≡ register_of self at }
    {
        match at {
            301 => self.r301,
            303 => self.r303,
            308 => self.r308,
            315 => self.r315,
            316 => self.r316,
            317 => self.r317,
            318 => self.r318,
            319 => self.r319,
            320 => signed::to_bits(self.r320),
            332 => self.r332,
            334 => self.r334,
            335 => self.r335,
            _ => 0,
        }
    }

    // So many registers from 300 + `from` on, as the words of a reply; zeros after them.
    pub fn registers(self, from: u8, count: u8) -> [u16; WORDS]
        ensures { result ≡ row 127 (λ i. register_of self (300 + from + i)) (min 127 count) }
    {
        let first = 300 + u16::from(from);
        words(count, |i| self.register(first + i))
    }

    // A whole set of settings is judged as a write of it would be.
    pub fn judged(self) -> Result<(), Refusal>
        ensures { result ≡ judged_of (values_of self) }
    {
        judged(self.values())
    }

    // A write begins.
    pub fn draft(self) -> Draft
        ensures { result ≡ draft_of self }
    {
        Draft {
            values: self.values(),
        }
    }

    // The values of registers 300 to 399.
    #[tactic(auto, unfolding(crate::specs::Settings::register_of, crate::specs::Settings::registers, crate::specs::Settings::values_of))]
    fn values(self) -> [u16; 100]
        ensures { result ≡ values_of self }
    {
        let mut values = [0; 100];
        values[1] = self.r301;
        values[3] = self.r303;
        values[8] = self.r308;
        values[15] = self.r315;
        values[16] = self.r316;
        values[17] = self.r317;
        values[18] = self.r318;
        values[19] = self.r319;
        values[20] = signed::to_bits(self.r320);
        values[32] = self.r332;
        values[34] = self.r334;
        values[35] = self.r335;
        values
    }

    // The settings that those values of registers 300 to 399 are.
    #[tactic(auto, unfolding(crate::specs::Settings::settings_of))]
    fn of(values: [u16; 100]) -> Settings
        ensures { result ≡ settings_of values }
    {
        Settings {
            r301: values[1],
            r303: values[3],
            r308: values[8],
            r315: values[15],
            r316: values[16],
            r317: values[17],
            r318: values[18],
            r319: values[19],
            r320: signed::from_bits(values[20]),
            r332: values[32],
            r334: values[34],
            r335: values[35],
        }
    }

    #[tactic(auto, unfolding(crate::specs::Settings::ordered))]
    fn ordered(self) -> bool
        ensures { result ≡ ordered self }
    {
        (self.r316 <= self.r301) & (self.r301 < self.r315)
    }
}

impl Draft {
    // The write ends, taken whole or not at all: the settings that it leaves.
    pub fn finish(self) -> Result<Settings, Refusal>
        ensures { result ≡ written_of self }
    {
        judged(self.values)?;
        Ok(Settings::of(self.values))
    }
}

// One register of a write put among the values of registers 300 to 399, in place; the later value where it was put before.
// One outside 300 to 399 is no setting.
pub fn put_value(values: &mut [u16; 100], at: u32, value: u16)
    ensures { Put values.old at value values.new }
{
    if (300 <= at) & (at <= 399) {
        values[(at - 300) as usize] = value;
    }
}

// The one judgement: the lowest register out of its range, then the ordering rule.
fn judged(values: [u16; 100]) -> Result<(), Refusal>
    ensures { result ≡ judged_of values }
{
    let least = Settings::MINIMUM.values();
    let greatest = Settings::MAXIMUM.values();
    for i in 0..100 {
        let place = i as usize;
        if !is_in_range(300 + i, values[place], least[place], greatest[place]) {
            return Err(Refusal::OutOfRange(300 + i));
        }
    }
    if Settings::of(values).ordered() {
        Ok(())
    } else {
        Err(Refusal::OutOfOrder)
    }
}

// A register's value lies from its least to its greatest; both are 0 for an unlisted one.
fn is_in_range(at: u16, value: u16, least: u16, greatest: u16) -> bool
    ensures { result ≡ le_z (meant_by at least) (meant_by at value) && le_z (meant_by at value) (meant_by at greatest) }
{
    let least = meant_by(at, least);
    let greatest = meant_by(at, greatest);
    let number = meant_by(at, value);
    (least <= number) & (number <= greatest)
}

// The number that a register's sixteen bits mean: 320 alone is signed.
fn meant_by(at: u16, bits: u16) -> i32
    ensures { result ≡ meant_by at bits }
{
    if at == 320 {
        i32::from(signed::from_bits(bits))
    } else {
        i32::from(bits)
    }
}
