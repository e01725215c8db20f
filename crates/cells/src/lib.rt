// A cell of a book's table: what a rule says of one of its names, as one number made of the rule's head and the words of the fragment and the range that the name is in.
#![tactic(auto)]

ghost use Rattle.std.specs.Prelude.{◌≡◌, ◌<◌};
ghost use Rattle.tables.specs.Words.{round_in};
ghost use Rattle.cells.specs.Making.{before_from, order_from, fragment_from, clock_from, shared_cell, cell_with};

// ---- what the order says of fragment f. The head and f go side by side, and in no struct: `shared` is called with numbers, and would make it only to take it apart

// The fragment that it follows: the first follows the last.
fn preceding(head: u64, f: usize) -> usize
    requires { f < round_in head }
    ensures { (result ≡ before_from head f) × (result < 16) }
{
    let all = usize::from(tables::fragments_in_round(head));
    if f == 0 {
        return all - 1;
    }
    f - 1
}

// Its number, the one that it follows, whether it is the last, and whether its event releases the rule.
#[tactic(auto, unfolding(crate::specs::Making::order_from))]
fn order(head: u64, f: usize) -> u64
    requires { (f < round_in head) × (f < 16) }
    ensures { (result ≡ order_from head f) × (result < 1024) }
{
    let before = preceding(head, f) as u64;
    let all = usize::from(tables::fragments_in_round(head));
    let p = usize::from(tables::fragments_in_p(head));
    let last = u64::from(all <= f + 1);
    let frees = u64::from((tables::kind(head) == 0) & (p <= f));
    (f as u64) + 16 * before + 256 * last + 512 * frees
}

// ---- what the fragment says

// Its count of ranges less one, and its join. One less than a count of 1 to 8 is that of 7 more, modulo 8, and so nothing is asked of the count.
#[tactic(auto, using(tables::proofs::Bounds::count_small), unfolding(crate::specs::Making::fragment_from))]
fn fragment(word: u16) -> u64
    ensures { (result ≡ fragment_from word) × (result < 256) }
{
    let less = u64::from((tables::ranges_in(word) + 7) % 8);
    let join = u64::from(tables::join(word) % 4);
    8 * less + 64 * join
}

// ---- what the clock says of fragment f

// Whether it is in P, whether it is in Q, and whether it is the last of a P that a deadline follows.
#[tactic(auto, unfolding(crate::specs::Making::clock_from))]
fn clock(head: u64, f: usize) -> u64
    requires { f < 16 }
    ensures { (result ≡ clock_from head f) × (result < 8) }
{
    let timed = tables::kind(head) == 2;
    let p = usize::from(tables::fragments_in_p(head));
    if p <= f {
        return 2 * u64::from(timed);
    }
    1 + 4 * u64::from(timed & (p <= f + 1))
}

// ---- the cell

// What the cells of fragment f's ranges share.
pub fn shared(head: u64, word: u16, f: usize) -> u64
    requires { f < round_in head }
    ensures { result ≡ shared_cell head word f }
{
    order(head, f) + 1024 * fragment(word) + 524288 * clock(head, f)
}

// With range i's own: its number, u and v.
#[tactic(auto, unfolding(crate::specs::Making::cell_with))]
pub fn cell_of(shared: u64, word: u64, i: usize) -> u64
    requires { (shared < 4194304) × (i < 8) }
    ensures { result ≡ cell_with shared word i }
{
    let low = u64::from(tables::low(word));
    let high = u64::from(tables::high(word));
    shared + 1024 * (i as u64) + 4294967296 * (low + 65536 * high)
}
