// What is shown: each register by its number.
ghost use Rattle.std.specs.Prelude.{true, ◌||◌, ◌≡◌, ◌+◌, ◌≤◌, min, length};
ghost use Rattle.laws.specs.Row.{row};
ghost use Rattle.requests.specs.Requests.{in_one_range};
ghost use Rattle.answers.specs.Registers.{in_readings, in_statistics, in_settings, shown_at, value_at};
ghost use Rattle.answers.specs.Making.{listed_by, listed_word, looked_up};

use hire::Hire;
use numbers::{WORDS, words};
use pack::Pack;

// A register's value; a number outside the three ranges has none.
pub fn register(pack: Pack, hire: Hire, at: u16) -> Option<u16>
    ensures { result ≡ shown_at pack hire at }
{
    if is_shown(at) {
        let words = block(pack, hire, at, 1);
        return Some(words[0]);
    }
    None
}

// So many registers of one range, as the words of a reply.
pub(crate) fn block(pack: Pack, hire: Hire, at: u16, count: u8) -> [u16; WORDS]
    requires { in_one_range at count ≡ true }
    ensures { result ≡ row 127 (λ i. value_at pack hire (at + i)) (min 127 count) }
{
    let lifetime = pack.clock.seconds;
    let per_km = pack.per_km;
    if at < 100 {
        return hire.registers(lifetime, per_km, at as u8, count);
    }
    if at < 300 {
        return hire.statistics.registers(per_km, (at - 100) as u8, count);
    }
    pack.settings.registers((at - 300) as u8, count)
}

// Of a list each address, and its register, as the words of a reply.
pub(crate) fn listed(pack: Pack, hire: Hire, request: &[u8], count: u8) -> [u16; WORDS]
    requires { count ≤ 127 }
    ensures { result ≡ row 127 (listed_word pack hire request.now) count }
{
    let per_km = pack.per_km;
    let readings = hire.registers(pack.clock.seconds, per_km, 0, 56);
    let statistics = hire.statistics.registers(per_km, 0, 18);
    let settings = pack.settings.registers(0, 100);
    words(
        count,
        |i| listed_word(request, &readings, &statistics, &settings, i),
    )
}

#[tactic(auto, unfolding(crate::specs::Making::listed_by))]
fn listed_word(
    request: &[u8],
    readings: &[u16],
    statistics: &[u16],
    settings: &[u16],
    i: u16,
) -> u16
    requires { (127 ≤ length readings.now) × ((127 ≤ length statistics.now) × (127 ≤ length settings.now)) }
    ensures { result ≡ listed_by (looked_up readings.now statistics.now settings.now) request.now i }
{
    let address = requests::address_at(request, i / 2);
    if i % 2 == 0 {
        return address;
    }
    looked_up(readings, statistics, settings, address)
}

// A register of the three ranges, and 0 where there is none.
#[tactic(auto, unfolding(crate::specs::Making::looked_up))]
fn looked_up(readings: &[u16], statistics: &[u16], settings: &[u16], at: u16) -> u16
    requires { (127 ≤ length readings.now) × ((127 ≤ length statistics.now) × (127 ≤ length settings.now)) }
    ensures { result ≡ looked_up readings.now statistics.now settings.now at }
{
    if at < 56 {
        return readings[usize::from(at)];
    }
    if at < 100 {
        return 0;
    }
    if at < 118 {
        return statistics[usize::from(at - 100)];
    }
    if at < 300 {
        return 0;
    }
    if at < 400 {
        return settings[usize::from(at - 300)];
    }
    0
}

// Does the number stand in one of the three ranges?
fn is_shown(at: u16) -> bool
    ensures { result ≡ (in_readings at || (in_statistics at || in_settings at)) }
{
    (at <= 55) | (((100 <= at) & (at <= 117)) | ((300 <= at) & (at <= 399)))
}
