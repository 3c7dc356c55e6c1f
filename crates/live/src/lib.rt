// What is measured at this moment: pack volts and amps, and the speed over the last ten ticks.
#![tactic(auto)]

ghost use Rattle.std.specs.Prelude.{◌≡◌, pos};
ghost use Rattle.std.specs.Float.{binary32};
ghost use Rattle.std.specs.Float.Ieee.{div, of_int};
ghost use Rattle.laws.specs.Fold.{shifted};
ghost use Rattle.live.specs.Live.{exact, live_of, no_live, bits_of, speed_of, speed_bits_of};

// Pack volts and amps, kept together.
#[repr(C)]
#[derive(Clone, Copy)]
pub struct Live {
    pub volts: f32,
    pub amps: f32,
}

// Speed is either km/h or "no wheel sensor": the paper names both, so they are cases of its own and no Option.
#[derive(Clone, Copy)]
pub enum Speed {
    NoSensor,
    KmPerHour(f32),
}

impl Live {
    // As before the first tick.
    pub fn none() -> Live
        ensures { result ≡ no_live }
    {
        Live {
            volts: whole(0),
            amps: whole(0),
        }
    }

    // From the exact sum of the cells in 0.1 mV and the current in mA.
    pub fn measured(sum: u32, current: i32) -> Live
        ensures { result ≡ live_of sum current }
    {
        let volts = divided(whole(sum), 10000);
        let amps = divided(whole_signed(current), 1000);
        Live { volts, amps }
    }

    // What registers 36 and 37 hold.
    pub fn volts_bits(self) -> u32
        ensures { result ≡ bits_of self.volts }
    {
        bits(self.volts)
    }

    // What registers 38 and 39 hold.
    pub fn amps_bits(self) -> u32
        ensures { result ≡ bits_of self.amps }
    {
        bits(self.amps)
    }
}

impl Speed {
    // From the pulses of the last ten ticks, and pulses per km, where 0 means no wheel sensor.
    pub fn over(window: [u16; 10], per_km: u16) -> Speed
        ensures { result ≡ speed_of window per_km }
    {
        if per_km == 0 {
            return Speed::NoSensor;
        }
        let pulses = cells::sum(&window);
        Speed::KmPerHour(divided(whole(3600 * pulses), per_km))
    }

    // What registers 54 and 55 hold.
    #[tactic(auto, unfolding(crate::specs::Live::speed_bits_of))]
    pub fn shown(self) -> u32
        ensures { result ≡ speed_bits_of self }
    {
        match self {
            Speed::NoSensor => 0,
            Speed::KmPerHour(x) => bits(x),
        }
    }
}

// The window a tick later: the oldest count goes, the new one is last.
#[tactic(auto, unfolding(laws::specs::Fold::shifted))]
pub fn next_window(mut window: [u16; 10], pulses: u16) -> [u16; 10]
    ensures { result ≡ shifted window pulses }
{
    window.copy_within(1.., 0);
    window[9] = pulses;
    window
}

// A whole number below 2^24 is cast with no loss; no accepted tick brings more.
fn whole(n: u32) -> f32
    ensures { result ≡ of_int binary32 (exact (pos n)) }
{
    n.min(16777216) as f32
}

fn whole_signed(n: i32) -> f32
    ensures { result ≡ of_int binary32 (exact n) }
{
    n.clamp(-16777216, 16777216) as f32
}

// The one division.
fn divided(n: f32, d: u16) -> f32
    ensures { result ≡ div binary32 n (of_int binary32 (pos d)) }
{
    n / (d as f32)
}

#[tactic(auto, unfolding(crate::specs::Live::bits_of))]
fn bits(x: f32) -> u32
    ensures { result ≡ bits_of x }
{
    if x.is_nan() { 0 } else { x.to_bits() }
}
