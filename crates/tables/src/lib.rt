// What a number of a book's tables holds (document 01): a rule's eight bytes, a fragment's join and count of ranges, a range's name and bounds; and, in the table that observing looks up, a
// rule's cells, its t, and the mask of the rules that hold a name.
// A head, a word and a cell are numbers, and no types of their own: they lie as such in the table of a book, which C lends.
#![tactic(auto)]

ghost use Rattle.std.specs.Prelude.{◌≡◌, cond, eqb, ◌<◌};
ghost use Rattle.tables.specs.Cells.{fragment_in, before_in, last_in, frees_in, index_in, less_in, join_of_cell, shuffled_in, least_in, most_in, in_p_in, in_q_in, ends_p_in, mask_in};
ghost use Rattle.tables.specs.Words.{cap, kind_in, count_p_in, count_q_in, trigger_in, time_in, round_in, join_in, count_in, bit_in, low_in, high_in};

// ---- a rule's head

pub fn kind(head: u64) -> u8
    ensures { result ≡ kind_in head }
{
    (head % 256) as u8
}

pub fn fragments_in_p(head: u64) -> u8
    ensures { result ≡ count_p_in head }
{
    (head / 256 % 256) as u8
}

pub fn fragments_in_q(head: u64) -> u8
    ensures { result ≡ count_q_in head }
{
    (head / 65536 % 256) as u8
}

pub fn trigger(head: u64) -> u8
    ensures { result ≡ trigger_in head }
{
    (head / 16777216 % 256) as u8
}

pub fn time(head: u64) -> u32
    ensures { result ≡ time_in head }
{
    (head / 4294967296 % 4294967296) as u32
}

// At most 16: a sheet has no more rules, and a rule no more fragments.
pub fn few(n: usize) -> usize
    ensures { result ≡ cap 16 n }
{
    n.min(16)
}

// Fragments in the round.
#[tactic(auto, unfolding(crate::specs::Words::round_in))]
pub fn fragments_in_round(head: u64) -> u8
    ensures { result ≡ round_in head }
{
    fragments_in_p(head)
        .saturating_add(fragments_last(head))
        .min(16)
}

// Fragments in the round after P: Q's, or the trigger's one.
fn fragments_last(head: u64) -> u8
    ensures { result ≡ cond (eqb (kind_in head) 2) (count_q_in head) 1 }
{
    if kind(head) == 2 {
        return fragments_in_q(head);
    }
    1
}

// ---- a fragment's word

pub fn join(word: u16) -> u8
    ensures { result ≡ join_in word }
{
    (word % 256) as u8
}

// By cases, not by `min`: the compiler then lays out the eight turns over a fragment's ranges one by one, and keeps no operands for two names at once in the host's image.
#[tactic(auto, unfolding(crate::specs::Words::count_in))]
pub fn ranges_in(word: u16) -> u8
    ensures { result ≡ count_in word }
{
    let n = word / 256 % 256;
    if 8 < n {
        return 8;
    }
    n as u8
}

// ---- a range's word

// The name's place in a set of names: 0 to 63, whatever the number.
pub fn bit(word: u64) -> u8
    ensures { result ≡ bit_in word }
{
    (word % 64) as u8
}

pub fn low(word: u64) -> u16
    ensures { result ≡ low_in word }
{
    (word / 256 % 65536) as u16
}

pub fn high(word: u64) -> u16
    ensures { result ≡ high_in word }
{
    (word / 16777216 % 65536) as u16
}

// ---- a cell: what a rule says of one of its names, by the owner of each field

// The order's.
pub fn fragment_in(cell: u64) -> u8
    ensures { result ≡ fragment_in cell }
{
    (cell % 16) as u8
}

pub fn before_in(cell: u64) -> u8
    ensures { result ≡ before_in cell }
{
    (cell / 16 % 16) as u8
}

pub fn is_last(cell: u64) -> bool
    ensures { result ≡ last_in cell }
{
    cell / 256 % 2 == 1
}

pub fn frees(cell: u64) -> bool
    ensures { result ≡ frees_in cell }
{
    cell / 512 % 2 == 1
}

// The fragment's.
pub fn index_in(cell: u64) -> u8
    ensures { result ≡ index_in cell }
{
    (cell / 1024 % 8) as u8
}

pub fn less_in(cell: u64) -> u8
    ensures { result ≡ less_in cell }
{
    (cell / 8192 % 8) as u8
}

pub fn join_in(cell: u64) -> u8
    ensures { result ≡ join_of_cell cell }
{
    (cell / 65536 % 4) as u8
}

pub fn is_shuffled(cell: u64) -> bool
    ensures { result ≡ shuffled_in cell }
{
    cell / 131072 % 2 == 1
}

pub fn least_in(cell: u64) -> u16
    ensures { result ≡ least_in cell }
{
    (cell / 4294967296 % 65536) as u16
}

pub fn most_in(cell: u64) -> u16
    ensures { result ≡ most_in cell }
{
    (cell / 281474976710656 % 65536) as u16
}

// The clock's.
pub fn in_p(cell: u64) -> bool
    ensures { result ≡ in_p_in cell }
{
    cell / 524288 % 2 == 1
}

pub fn in_q(cell: u64) -> bool
    ensures { result ≡ in_q_in cell }
{
    cell / 1048576 % 2 == 1
}

pub fn ends_p(cell: u64) -> bool
    ensures { result ≡ ends_p_in cell }
{
    cell / 2097152 % 2 == 1
}

// ---- the table of a book: at each name the mask of the rules that hold it; then each rule's head; then each rule's cells, by name; then the version and the outputs

// So many masks, and so many cells for each rule.
pub const NAMES: usize = 64;

// Rule r's head stands at HEADS + r,
pub const HEADS: usize = NAMES;

// its cell of name n at CELLS + NAMES r + n.
pub const CELLS: usize = HEADS + 16;

pub const VERSION: usize = CELLS + 16 * NAMES;

pub const OUTPUTS: usize = VERSION + 1;

pub const LENGTH: usize = OUTPUTS + 1;

pub type Table = [u64; LENGTH];

// The mask that the word of a name holds.
pub fn mask_in(word: u64) -> u16
    ensures { result ≡ mask_in word }
{
    (word % 65536) as u16
}
