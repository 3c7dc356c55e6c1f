// A record of a store: an edition, the twelve settings in register order, four zero bytes, each number low byte first.
ghost use Rattle.std.specs.Prelude.{◌≡◌, ◌<◌, get_or};
ghost use Rattle.writes.specs.Writes.{drafted_of};
ghost use Rattle.classes.specs.Store.{twelve, record_of, recalled_pairs};

use numbers::{low_first_16, put_low_first_16, put_low_first_32};
use settings::{Draft, Settings, put_value};

const TWELVE: [u16; 12] = [301, 303, 308, 315, 316, 317, 318, 319, 320, 332, 334, 335];

pub(crate) fn record_of(edition: u32, settings: Settings) -> [u8; 32]
    ensures { result ≡ record_of edition settings }
{
    let mut class = [0u8; 32];
    put_low_first_32(&mut class, 0, edition);
    for i in 0..TWELVE.len() {
        put_low_first_16(&mut class, 4 + 2 * i, settings.register(register_at(i)));
    }
    class
}

// The twelve put into a draft, one by one.
pub(crate) fn drafted(draft: Draft, class: [u8; 32]) -> Draft
    ensures { result ≡ drafted_of draft (recalled_pairs class) }
{
    let mut values = draft.values;
    for i in 0..TWELVE.len() {
        put_value(
            &mut values,
            register_at(i) as u32,
            low_first_16(&class, 4 + 2 * i),
        );
    }
    Draft { values }
}

fn register_at(i: usize) -> u16
    requires { i < 12 }
    ensures { result ≡ get_or twelve i 0 }
{
    TWELVE[i]
}
