// What is read off the cells that a tick brings, as 16-bit numbers in 0.1 mV.
#![tactic(auto)]

ghost use Rattle.std.specs.Prelude.{◌≡◌, ◌-◌, ◌≤◌, take};
ghost use Rattle.laws.specs.Fold.{bit_of};
ghost use Rattle.cells.specs.Cells.{kept_of, extremes_of, sum_of, decides, decision_of, millivolts_of};

// The lowest and the highest cell.
#[repr(C)]
#[derive(Clone, Copy)]
pub struct Extremes {
    pub lowest: u16,
    pub highest: u16,
}

impl Extremes {
    // Of no cells, the lowest is the highest number that there is, and the highest is 0.
    pub fn of(cells: &[u16]) -> Extremes
        ensures { result ≡ extremes_of cells.now }
    {
        let mut lowest = u16::MAX;
        let mut highest = 0;
        for cell in cells {
            lowest = lowest.min(*cell);
            highest = highest.max(*cell);
        }
        Extremes { lowest, highest }
    }

    // By how much the highest is over the lowest.
    pub fn difference(self) -> u16
        ensures { result ≡ self.highest - self.lowest }
    {
        self.highest.saturating_sub(self.lowest)
    }
}

// Up to 16 cells as they are kept, zeros after them.
pub fn kept(cells: &[u16]) -> [u16; 16]
    ensures { result ≡ kept_of cells.now }
{
    let first = first_16(cells);
    let mut all = [0; 16];
    all[..first.len()].copy_from_slice(first);
    all
}

// The exact sum of up to 16 cells.
pub fn sum(cells: &[u16]) -> u32
    ensures { (result ≡ sum_of cells.now) × (result ≤ 1048560) }
{
    let mut all = 0;
    for cell in first_16(cells) {
        all += u32::from(*cell);
    }
    all
}

// The balancing decision of up to 16 cells, cell 1 the lowest bit, by the settings r303 and r308 in mV.
pub fn decision(cells: &[u16], r303: u16, r308: u16) -> u16
    ensures { result ≡ decision_of r303 r308 cells.now }
{
    let low = Extremes::of(cells).lowest;
    let mut bits = 0;
    for cell in first_16(cells).iter().rev() {
        bits = bits + bits + decision_bit(r303, r308, low, *cell);
    }
    bits
}

// A cell to the nearest mV, a half going up.
pub fn millivolts(cell: u16) -> u16
    ensures { result ≡ millivolts_of cell }
{
    ((u32::from(cell) + 5) / 10) as u16
}

fn first_16(cells: &[u16]) -> &[u16]
    ensures { result.now ≡ take 16 cells.now }
{
    &cells[..cells.len().min(16)]
}

// The settings are in mV and the cells in 0.1 mV.
fn decision_bit(r303: u16, r308: u16, low: u16, cell: u16) -> u16
    ensures { (result ≡ bit_of (decides r303 r308 low cell)) × (result ≤ 1) }
{
    let more = cell.saturating_sub(low);
    ((10 * u32::from(r303) < u32::from(cell)) & (10 * u32::from(r308) < u32::from(more))) as u16
}
