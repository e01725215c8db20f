// The eight recogniser states and the eight counts of the fragment that a rule stands at (document 01, "The recogniser of a range"; document 02, change 1): both before the fragment's first
// event, and with one of them replaced. No array is written at a place that is not known: new states come from one word, and new counts from eight choices, which the compiler makes at once.
#![tactic(auto)]

ghost use Rattle.std.specs.Prelude.{◌≡◌, cond, ◌+◌, ◌*◌, ◌/◌, ◌-◌, ◌^◌, ◌<◌, get_or, set};
ghost use Rattle.recogniser.specs.Counts.{saturated};
ghost use Rattle.tables.specs.Cells.{less_in};
ghost use Rattle.fragment.specs.Fragments.{waiting_of, ranges_of};

// ---- by a cell

// The lowest bytes of a word of eight equal bytes: one for each range of the cell's fragment.
fn cut(word: u64, cell: u64) -> u64
    ensures { result ≡ word / 2 ^ (56 - 8 * less_in cell) }
{
    word >> (56 - 8 * tables::less_in(cell))
}

// Each range of the cell's fragment waits (2): eight states from one word, the first from its lowest byte.
pub fn waiting(cell: u64) -> [u8; 8]
    ensures { result ≡ waiting_of cell }
{
    cut(0x0202020202020202, cell).to_le_bytes()
}

// The set of the ranges of the cell's fragment.
#[tactic(auto, unfolding(crate::specs::Fragments::ranges_of))]
pub fn ranges(cell: u64) -> u8
    ensures { result ≡ ranges_of cell }
{
    255u8 >> (7 - tables::less_in(cell))
}

// ---- one of eight replaced

// The states, with range i's replaced: the byte is taken out of the word, and the new one put in its place.
pub fn with_state(x: [u8; 8], i: u8, state: u8) -> [u8; 8]
    requires { i < 8 }
    ensures { result ≡ set x i state }
{
    let word = u64::from_le_bytes(x);
    let at = 8 * i;
    let old = (word >> at) % 256;
    (word - (old << at) + (u64::from(state) << at)).to_le_bytes()
}

#[tactic(auto, unfolding(recogniser::specs::Counts::saturated))]
fn raised_if(here: bool, count: u16) -> u16
    ensures { result ≡ cond here (saturated (count + 1)) count }
{
    recogniser::saturating_sum(count, u16::from(here))
}

// The counts, with range i's one higher, or at 65,535 as it was. Spelled out, and no loop: so the compiler makes the eight choices at once.
pub fn raised(x: [u16; 8], i: u8) -> [u16; 8]
    ensures { result ≡ set x i (saturated (get_or x i 0 + 1)) }
{
    let at = u16::from(i);
    [
        raised_if(at == 0, x[0]),
        raised_if(at == 1, x[1]),
        raised_if(at == 2, x[2]),
        raised_if(at == 3, x[3]),
        raised_if(at == 4, x[4]),
        raised_if(at == 5, x[5]),
        raised_if(at == 6, x[6]),
        raised_if(at == 7, x[7]),
    ]
}
