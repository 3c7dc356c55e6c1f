// A receiver for the raw line: it takes bytes up to the end of the first complete frame and holds that frame.
// Every value is safe: a count past 264 means 264.
#![tactic(auto)]

ghost use Rattle.std.specs.Prelude.{false, ◌≡◌, ◌≤◌, ◌<◌, length, take};
ghost use Rattle.receiver.specs.Receiver.{held_of, complete, is_held, no_bytes, offered_of};
ghost use Rattle.receiver.specs.Taking.{Takes};

use refusals::{Outcome, Refusal};

// The longest frame: 9 bytes and a PL of 255.
pub const ROOM: usize = 264;

// The first `count` bytes have come of a frame: none, an unfinished one, or a complete one, which is held.
// C holds it by its fields, so the bytes stand in an array and the count beside it.
#[repr(C)]
#[derive(Clone, Copy)]
pub struct Receiver {
    pub bytes: [u8; ROOM],
    pub count: u16,
}

// What an offer comes to, how many bytes it took, and the receiver after it, which comes back after a refusal too.
#[derive(Clone, Copy)]
pub struct Offered {
    pub outcome: Outcome,
    pub taken: usize,
    pub receiver: Receiver,
}

impl Receiver {
    // As at the start, after a fetch and after a handover.
    pub fn none() -> Receiver
        ensures { result ≡ no_bytes }
    {
        Receiver {
            bytes: [0; ROOM],
            count: 0,
        }
    }

    // Takes bytes up to the end of the first complete frame; refused, and none taken, while a frame is held.
    pub fn offer(self, bytes: &[u8]) -> Offered
        ensures { result ≡ offered_of self bytes.now }
    {
        if self.is_held() {
            return Offered {
                outcome: Err(Refusal::FrameHeld),
                taken: 0,
                receiver: self,
            };
        }
        let mut held = self.bytes;
        let mut count = self.count;
        for (taken, byte) in bytes.iter().enumerate() {
            if is_complete(&held, count) {
                return Offered {
                    outcome: Ok(()),
                    taken,
                    receiver: Receiver { bytes: held, count },
                };
            }
            count = take_byte(&mut held, count, *byte);
        }
        let taken = bytes.len();
        Offered {
            outcome: Ok(()),
            taken,
            receiver: Receiver { bytes: held, count },
        }
    }

    // A frame is complete. Only then can the array be full.
    #[tactic(auto, unfolding(crate::specs::Receiver::is_held))]
    pub fn is_held(self) -> bool
        ensures { (result ≡ is_held self) × (result ≡ false → length (held_of self) < 264) }
    {
        let bytes = self.bytes;
        is_complete(&bytes, self.count)
    }

    // How many bytes have come of a frame.
    pub fn length(self) -> usize
        ensures { (result ≡ length (held_of self)) × (result ≤ 264) × (length self.bytes ≡ 264) }
    {
        usize::from(self.count).min(ROOM)
    }
}

// The first `count` of these bytes are a complete frame.
fn is_complete(bytes: &[u8], count: u16) -> bool
    ensures { (result ≡ complete (take count bytes.now)) × (result ≡ false → length (take count bytes.now) < 264) }
{
    let n = (count as usize).min(bytes.len());
    requests::length_of(&bytes[..n]) <= n
}

// One byte more, and how many have then come; it is skipped where none has come and it begins no frame.
fn take_byte(held: &mut [u8], count: u16, byte: u8) -> u16
    requires { (length (take count held.old) < 264) × (length held.old ≡ 264) }
    ensures { Takes held.old count byte result held.new }
{
    if (count == 0) & (byte != 0xAA) {
        return count;
    }
    held[count as usize] = byte;
    count + 1
}
