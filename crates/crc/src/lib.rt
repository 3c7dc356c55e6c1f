// The CRC that ends every frame: the Modbus CRC, by a table of sixteen numbers, two steps for each byte.
#![tactic(auto)]

ghost use Rattle.std.specs.Prelude.{◌≡◌};
ghost use Rattle.crc.specs.Crc.{times, byte_in, crc_of};
ghost use Rattle.crc.specs.Table.{Shifted};

// Entry n is n after four shifts.
const TABLE: [u16; 16] = [
    0x0000, 0xCC01, 0xD801, 0x1400, 0xF001, 0x3C00, 0x2800, 0xE401, 0xA001, 0x6C00, 0x7800, 0xB401,
    0x5000, 0x9C01, 0x8801, 0x4400,
];

pub fn crc(bytes: &[u8]) -> u16
    ensures { result ≡ crc_of bytes.now }
{
    // Lent from here, the table is laid out once; read as the constant, at each look-up.
    let table = TABLE;
    let mut sum: u16 = 0xFFFF;
    for byte in bytes {
        sum = byte_in(sum, *byte, &table);
    }
    sum
}

// A byte is exclusive-ored in, and its halves are shifted out, the low one first.
fn byte_in(sum: u16, byte: u8, table: &[u16; 16]) -> u16
    requires { Shifted table.now }
    ensures { result ≡ byte_in sum byte }
{
    half_out(half_out(sum ^ (byte as u16), table), table)
}

// Four shifts at once: the upper bits only move, and the lowest four pick what is exclusive-ored in.
fn half_out(sum: u16, table: &[u16; 16]) -> u16
    requires { Shifted table.now }
    ensures { result ≡ times 4 sum }
{
    let half = (sum % 16) as usize;
    (sum / 16) ^ table[half]
}
