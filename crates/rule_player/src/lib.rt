// The stub that plays the plugin (document 02, change 5): "Given a book, a rule number, a time, lent choice bytes and an output, write one round of that rule as log records, all at that time."
// One choice byte is one step: a name comes, or a fragment is left (docs/PLAYING.md). Two passes take the same steps, the first to know the round's length: "18, the chosen round is longer than
// the output", and "neither writes anything". Nothing is asked of the table.
#![tactic(auto)]

ghost use Rattle.std.specs.Prelude.{◌≡◌, ◌+◌, ◌*◌, ◌/◌, ◌≤◌, ◌<◌, IfSome, length};
ghost use Rattle.std.proofs.Props.{props};
ghost use Rattle.rule_player.specs.Choice.{empty, count_of, comes, is_new, room_for, enough_for, goes_on, may_change, may_come, first_short, may_end, within, needed, towards_the_end, picked, step_by};
ghost use Rattle.rule_player.specs.Said.{range_by, size_by, fragment_by, ranges_at, has_rule};
ghost use Rattle.rule_player.specs.Playing.{record_bytes, Plays};
ghost use Rattle.rule_player.specs.Passing.{byte_at, put_if, Passes};

use places::NamedTable;
use tables::Table;

// ---- a fragment of the round, as the table says it

// The names and the cells of its ranges, by their places. The first cell has the fragment's join and its count of ranges.
#[derive(Clone, Copy)]
struct Ranges {
    pub names: [u8; 8],
    pub cells: [u64; 8],
}

impl Ranges {
    fn at(places: &NamedTable, r: usize, f: usize) -> Ranges
        requires { (r < 16) × (f < 16) }
        ensures { result ≡ ranges_at places.now r f }
    {
        let mut names = [0u8; 8];
        let mut cells = [0u64; 8];
        for i in 0..8 {
            names[i] = places.name(r, f, i);
            cells[i] = places.cell(r, f, i);
        }
        Ranges { names, cells }
    }

    fn count(&self) -> usize
        ensures { result ≡ size_by self.now }
    {
        (tables::less_in(self.cells[0]) as usize) + 1
    }
}

// ---- its filling

// How often each of its names has come, and which range's came last, if any has.
#[derive(Clone, Copy)]
struct Filling {
    pub counts: [u64; 8],
    pub last: Option<usize>,
}

impl Filling {
    fn empty() -> Filling
        ensures { result ≡ empty }
    {
        Filling {
            counts: [0u64; 8],
            last: None,
        }
    }
}

// The fragment whose turn it is, and its filling: what came last is one of its ranges.
#[derive(Clone, Copy)]
struct Turn {
    pub ranges: Ranges,
    pub filling: Filling,
    ghost inside: { IfSome filling.last (λ l. l < size_by ranges) } by { Prim.hlevel props },
}

impl Turn {
    // Fragment f of rule r begins.
    fn new(places: &NamedTable, r: usize, f: usize) -> Turn
        requires { (r < 16) × (f < 16) }
        ensures { (result.ranges ≡ ranges_at places.now r f) × (result.filling ≡ empty) }
    {
        Turn {
            ranges: Ranges::at(places, r, f),
            filling: Filling::empty(),
        }
    }

    // The name of range i comes.
    fn take(&mut self, i: usize)
        requires { (i < size_by self.old.ranges) × (count_of self.old.filling i < 18446744073709551615) }
        ensures { (self.new.ranges ≡ self.old.ranges) × (self.new.filling ≡ comes self.old.filling i) }
    {
        self.filling.counts[i] += 1;
        self.filling.last = Some(i);
    }

    fn is_new(&self, i: usize) -> bool
        requires { i < 8 }
        ensures { result ≡ is_new self.now.filling i }
    {
        self.filling.counts[i] == 0
    }

    fn has_enough(&self, i: usize) -> bool
        requires { i < 8 }
        ensures { result ≡ enough_for (range_by self.now.ranges i) (count_of self.now.filling i) }
    {
        (tables::least_in(self.ranges.cells[i]) as u64) <= self.filling.counts[i]
    }

    fn has_room(&self, i: usize) -> bool
        requires { i < 8 }
        ensures { result ≡ room_for (range_by self.now.ranges i) (count_of self.now.filling i) }
    {
        let cell = self.ranges.cells[i];
        let count = self.filling.counts[i];
        let most = tables::most_in(cell) as u64;
        (most == 0) | (count < most)
    }

    // Range i's block goes on: blocks are shuffled, or it came last.
    fn goes_on(&self, i: usize) -> bool
        requires { i < 8 }
        ensures { result ≡ goes_on (fragment_by self.now.ranges) self.now.filling i }
    {
        let join = tables::join_in(self.ranges.cells[0]);
        recogniser::is_shuffled(join) | (self.filling.last == Some(i))
    }

    // Nothing has come, or the last block has enough.
    fn may_change(&self) -> bool
        ensures { result ≡ may_change (fragment_by self.now.ranges) self.now.filling }
    {
        match self.filling.last {
            None => true,
            Some(l) => self.has_enough(l),
        }
    }

    // Range i's name may come now.
    fn may_come(&self, i: usize) -> bool
        requires { i < size_by self.now.ranges }
        ensures { result ≡ may_come (fragment_by self.now.ranges) self.now.filling i }
    {
        if self.goes_on(i) {
            return self.has_room(i);
        }
        self.is_new(i) & self.may_change()
    }

    // The first range that has not enough: of all ranges, or of those that have come.
    fn first_short(&self, every: bool) -> usize
        ensures { result ≡ first_short (fragment_by self.now.ranges) self.now.filling every }
    {
        let n = self.ranges.count();
        for i in 0..n {
            if !self.has_enough(i) & (every | (0 < self.filling.counts[i])) {
                return i;
            }
        }
        n
    }

    // The fragment may be left.
    fn may_end(&self) -> bool
        ensures { result ≡ may_end (fragment_by self.now.ranges) self.now.filling }
    {
        let optional = recogniser::may_be_left_out(tables::join_in(self.ranges.cells[0]));
        let full = self.first_short(!optional) == self.ranges.count();
        self.filling.last.is_some() & full
    }

    fn within(&self, i: usize, other: usize) -> usize
        ensures { result ≡ within (fragment_by self.now.ranges) i other }
    {
        if i < self.ranges.count() {
            return i;
        }
        other
    }

    // What must come next, where the fragment may not be left.
    fn needed(&self) -> usize
        ensures { result ≡ needed (fragment_by self.now.ranges) self.now.filling }
    {
        let of_all = self.within(self.first_short(true), 0);
        self.within(self.first_short(false), of_all)
    }

    // ---- one byte, one step

    fn towards_the_end(&self) -> Step
        ensures { result ≡ towards_the_end (fragment_by self.now.ranges) self.now.filling }
    {
        if self.may_end() {
            return Step::Leave;
        }
        Step::Name(self.needed())
    }

    // 0 is towards the end, and k is range k - 1, if it may come now.
    fn picked(&self, k: usize) -> Step
        requires { k ≤ size_by self.now.ranges }
        ensures { result ≡ picked (fragment_by self.now.ranges) self.now.filling k }
    {
        if k == 0 {
            return self.towards_the_end();
        }
        if self.may_come(k - 1) {
            return Step::Name(k - 1);
        }
        self.towards_the_end()
    }

    fn step_by(&self, byte: u8) -> Step
        ensures { result ≡ step_by (fragment_by self.now.ranges) self.now.filling byte }
    {
        self.picked((byte as usize) % (self.ranges.count() + 1))
    }
}

// A name comes, or the fragment is left. No `Option`: leaving is a step, and not the absence of one.
#[derive(Drop)]
enum Step {
    Name(usize),
    Leave,
}

// "missing choice bytes counting as 0"
const MISSING: u8 = 0;

fn byte_at(choice: &[u8], at: usize) -> u8
    ensures { result ≡ byte_at choice.now at }
{
    choice.get(at).copied().unwrap_or(MISSING)
}

// ---- a pass over the round

// Record n: a name and the time. A pass that only counts writes none.
fn put_record(out: &mut [u8], n: usize, name: u8, time: u32, writes: bool)
    requires { 5 * n + 5 ≤ length out.old }
    ensures { out.new ≡ put_if writes out.old (5 * n) (record_bytes time name) }
{
    if writes {
        store::put(out, 5 * n, 1, name as u64);
        store::put(out, 5 * n + 1, 4, time as u64);
    }
}

// So many records fit in so many bytes.
fn room_in(bytes: usize) -> usize
    ensures { result ≡ bytes / 5 }
{
    bytes / 5
}

// The number of its records, which it writes or does not; none if the round is longer than the output. A closure in the place of `writes` would have to promise what `put_if` says of a flag.
fn pass(
    places: &NamedTable,
    r: usize,
    time: u32,
    choice: &[u8],
    out: &mut [u8],
    writes: bool,
) -> Option<usize>
    requires { r < 16 }
    ensures { Passes places.now r time choice.now writes out.old result out.new }
{
    let fragments = tables::fragments_in_round(places.table()[tables::HEADS + r]) as usize;
    let room = room_in(out.len());
    let mut n = 0usize;
    let mut f = 0usize;
    let mut turn = Turn::new(places, r, 0);
    // No `for`: a step is a record more or a fragment more, as the choice says.
    while f < fragments {
        let step = turn.step_by(byte_at(choice, n + f));
        match step {
            Step::Name(i) => {
                if n == room {
                    return None;
                }
                put_record(out, n, turn.ranges.names[i], time, writes);
                turn.take(i);
                n += 1;
            }
            Step::Leave => {
                f += 1;
                // After the sixteenth there is none, and nothing is looked up in what this gives.
                turn = Turn::new(places, r, f % 16);
            }
        }
    }
    Some(n)
}

// ---- the call

// Why no round is played. Document 02's numbers are 17 and 18.
#[derive(Clone, Copy, PartialEq, Eq, Debug)]
pub enum Refusal {
    // 17
    NoRule,
    // 18
    TooLong,
}

fn has_rule(table: &Table, rule: u32) -> bool
    ensures { result ≡ has_rule table.now rule }
{
    let r = rule as usize;
    r < 16 && table[tables::HEADS + r] != 0
}

// Plays a round. "The answer is the number of records; later bytes don't change." "Turned away: 17, no such rule; 18, the chosen round is longer than the output; 17 is looked at first, and
// neither writes anything." Of a table that no sheet gives, which names are written is free; they are inside the output.
pub fn play(
    table: &Table,
    rule: u32,
    time: u32,
    choice: &[u8],
    out: &mut [u8],
) -> Result<usize, Refusal>
    ensures { Plays table.now rule time choice.now out.old result out.new }
{
    if !has_rule(table, rule) {
        return Err(Refusal::NoRule);
    }
    let r = rule as usize;
    let mut names = [0; 2048];
    let places = NamedTable::new(table, &mut names);
    let Some(n) = pass(&places, r, time, choice, out, false) else {
        return Err(Refusal::TooLong);
    };
    pass(&places, r, time, choice, out, true);
    Ok(n)
}
