// How many bytes a reply has, as its own bytes say it.
ghost use Rattle.std.specs.Prelude.{◌≡◌, ◌≤◌, length};
ghost use Rattle.answers.specs.Length.{length_by, length_in};

// Room for the longest reply.
const ROOM: usize = 259;

// How many bytes of a reply buffer are the reply.
#[tactic(auto, unfolding(crate::specs::Length::length_in))]
pub fn length_in(buffer: &[u8]) -> usize
    ensures { (result ≡ length_in buffer.now) × (result ≤ length buffer.now) }
{
    if buffer.len() < ROOM {
        return 0;
    }
    if buffer[0] != 0xAA {
        return 0;
    }
    length_by(buffer[1], buffer[2]).min(buffer.len())
}

// A NACK, an ACK, 0x10's, those with no length byte; every other says its own.
#[tactic(auto, unfolding(crate::specs::Length::length_by))]
fn length_by(command: u8, pl: u8) -> usize
    ensures { result ≡ length_by command pl }
{
    match command {
        0x00 => 6,
        0x01 => 5,
        0x10 => 8,
        0x14 => 8,
        0x15 => 8,
        0x16 => 6,
        0x17 => 6,
        0x18 => 6,
        0x19 => 8,
        _ => 5 + usize::from(pl),
    }
}
