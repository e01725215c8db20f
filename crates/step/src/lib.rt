// One rule of a book at an event (document 01, "The recogniser of a range"; document 02, change 1): the rule's state by value, the book's table lent by reference.
// One path serves the four joins, and no loop goes over the ranges. Two sets say what the table of moves says of every range: `lacking`, those to which *next* would be an error, and `full`,
// those to which *own* would be one. So an event looks up one cell, its own name's, and changes two ranges at most: the one that it names, and, where blocks stand in a row, the one that
// counted. A name and a rule's number are reduced by a remainder, so that nothing is asked of them, of the table or of the state.
#![tactic(auto)]

ghost use Rattle.std.specs.Prelude.{◌≡◌, ◌%◌};
ghost use Rattle.step.specs.Steps.{broken_of, moved_by, errs_of, spent_of, standing_of, taken_of, opened_of, closed_of, is_at, ready_as, inside_of, follows_of, outside_of, seen_of, freed_of, cell_in, act_of};

use recogniser::{ALL, COUNTING, ERROR, IDLE, NEXT, OWN, SIBLING, UNBEGUN, WAITING};
use rule_state::RuleState;
use tables::Table;

// How a rule stands: whole, open, open with a deadline that runs, or broken.
#[derive(Clone, Copy, PartialEq, Eq)]
pub enum Standing {
    Whole,
    Open,
    Due,
    Broken,
}

// A rule's state after an event, and how the rule stands.
#[derive(Clone, Copy)]
pub struct Stepped {
    pub state: RuleState,
    pub standing: Standing,
}

// An error. The book stops, and the state is not looked at any more.
fn broken(st: RuleState) -> Stepped
    ensures { result ≡ broken_of st }
{
    Stepped {
        state: st,
        standing: Standing::Broken,
    }
}

// ---- a move, asked with a state and a class that are constants: of the formula the compiler leaves the one condition that such a move has

// A move of the cell's range, where so many of its events have come.
fn moved(cell: u64, state: u8, class: u8, count: u16) -> u8
    ensures { result ≡ moved_by cell state class count }
{
    recogniser::next_state(
        state,
        class,
        tables::join_in(cell),
        count,
        tables::least_in(cell),
        tables::most_in(cell),
    )
}

// The move is an error, where the range counts.
fn errs(cell: u64, class: u8, count: u16) -> bool
    ensures { result ≡ errs_of cell class count }
{
    moved(cell, COUNTING, class, count) == ERROR
}

// ---- after an event that is no error

// A P that a deadline follows is complete, and no range of its last fragment can take one more: any further event would have to be of Q.
#[tactic(auto, unfolding(crate::specs::Steps::spent_of))]
fn spent(cell: u64, lacking: u8, full: u8) -> bool
    ensures { result ≡ spent_of cell lacking full }
{
    tables::ends_p(cell) && lacking == 0 && full == fragment::ranges(cell)
}

// How the rule stands: whole at the end of a round; the deadline runs in Q up to that, and from a P that is spent.
#[tactic(auto, unfolding(crate::specs::Steps::standing_of))]
fn stands(cell: u64, lacking: u8, full: u8) -> Standing
    ensures { result ≡ standing_of cell lacking full }
{
    if tables::is_last(cell) && lacking == 0 {
        Standing::Whole
    } else if tables::in_q(cell) || spent(cell, lacking, full) {
        Standing::Due
    } else {
        Standing::Open
    }
}

// The cell's range takes an event that is no error to it. It waited or counted, and counts now, one more than before; its state and its bit of each set are the table's moves.
fn takes(cell: u64, st: RuleState, time: u32) -> Stepped
    ensures { result ≡ taken_of cell st time }
{
    let i = tables::index_in(cell);
    // Counts and states come first, each array taken out: so a record of a log takes fewest instructions.
    let was = st.counts;
    let count = recogniser::saturating_sum(was[i as usize], 1);
    let counts = fragment::raised(was, i);
    let before = st.states;
    let states = fragment::with_state(before, i, moved(cell, WAITING, OWN, count));
    let lacking = masks::put(st.lacking, i, errs(cell, NEXT, count));
    let full = masks::put(st.full, i, errs(cell, OWN, count));
    let k = stands(cell, lacking, full);
    Stepped {
        state: RuleState {
            fragment: tables::fragment_in(cell),
            current: i,
            states: states,
            counts: counts,
            lacking: lacking,
            full: full,
            end: deadline::ended(cell, st.end, time),
        },
        standing: k,
    }
}

// ---- an event

// The cell's fragment before its first event: each of its ranges waits, and counts begin again. Of the state that it leaves, the end of P is kept.
#[tactic(auto, unfolding(crate::specs::Steps::opened_of))]
fn opened(cell: u64, st: RuleState) -> RuleState
    ensures { result ≡ opened_of cell st }
{
    let lacking = if moved(cell, WAITING, NEXT, 0) == ERROR {
        fragment::ranges(cell)
    } else {
        0
    };
    RuleState {
        fragment: tables::fragment_in(cell),
        states: fragment::waiting(cell),
        counts: [0; 8],
        lacking,
        end: st.end,
        ..RuleState::default()
    }
}

// The range that counted is done: a sibling's event closes its block. It has enough, as its bit of `lacking` said, so that any number that is enough stands for its count.
#[tactic(auto, unfolding(crate::specs::Steps::closed_of))]
fn closed(st: RuleState) -> RuleState
    ensures { result ≡ closed_of st }
{
    let j = st.current % 8;
    let done = recogniser::next_state(COUNTING, SIBLING, ALL, 1, 1, 1);
    let errs = recogniser::next_state(done, OWN, ALL, 1, 1, 1) == ERROR;
    RuleState {
        states: fragment::with_state(st.states, j, done),
        full: masks::put(st.full, j, errs),
        ..st
    }
}

// The rule stands at the cell's fragment, which has begun.
#[tactic(auto, unfolding(crate::specs::Steps::is_at))]
fn is_at(cell: u64, st: RuleState) -> bool
    ensures { result ≡ is_at cell st }
{
    st.states[0] != UNBEGUN && tables::fragment_in(cell) == st.fragment
}

// What an event is to the ranges of a rule: an error, the trigger that releases it, or one that its own range takes, in this state, where every other range stands as the event leaves it.
#[derive(Drop)]
enum Seen {
    Error,
    Releases,
    Taken,
}

// No enum that has the state in it: with one, an event of a live session takes up to three instructions in a hundred more, and two rows of docs/PERFORMANCE.md go above their bar of 1.2.
#[derive(Drop)]
struct Ready {
    pub seen: Seen,
    pub state: RuleState,
}

fn ready_as(seen: Seen, st: RuleState) -> Ready
    ensures { result ≡ ready_as seen st }
{
    Ready {
        seen: seen,
        state: st,
    }
}

// An event of the fragment at which the rule stands. It is an error to its own range if that is full, and to the one that counts if that lacks and blocks stand in a row. An event of the
// range that counts, and one of a shuffled fragment, leave every other range as it is.
fn inside(cell: u64, st: RuleState) -> Ready
    ensures { result ≡ inside_of cell st }
{
    let i = tables::index_in(cell);
    if masks::holds(st.full, i) {
        return ready_as(Seen::Error, st);
    }
    if (i == st.current) | tables::is_shuffled(cell) {
        return ready_as(Seen::Taken, st);
    }
    if masks::holds(st.lacking, st.current) {
        return ready_as(Seen::Error, st);
    }
    ready_as(Seen::Taken, closed(st))
}

// An event that is not of it may only be the first of the fragment that follows: "An event seen as *next* by every range of the fragment, without error, is also the first event of the
// following one."
#[tactic(auto, unfolding(crate::specs::Steps::follows_of))]
fn follows(cell: u64, st: RuleState) -> bool
    ensures { result ≡ follows_of cell st }
{
    if st.states[0] == UNBEGUN {
        return tables::fragment_in(cell) == 0;
    }
    tables::before_in(cell) == st.fragment && st.lacking == 0
}

fn outside(cell: u64, st: RuleState) -> Ready
    ensures { result ≡ outside_of cell st }
{
    if !follows(cell, st) {
        return ready_as(Seen::Error, st);
    }
    if tables::frees(cell) {
        return ready_as(Seen::Releases, st);
    }
    ready_as(Seen::Taken, opened(cell, st))
}

// An event on one of the rule's names. Where nothing has come, no event is late that is no error: the rule's first fragment is of P.
fn seen_at(cell: u64, limit: u32, st: RuleState, time: u32) -> Ready
    ensures { result ≡ seen_of cell limit st time }
{
    if deadline::late(cell, limit, st.end, time) {
        return ready_as(Seen::Error, st);
    }
    if is_at(cell, st) {
        return inside(cell, st);
    }
    outside(cell, st)
}

// The trigger of kind 0 has come: the rule is released, and no later event is an error.
#[tactic(auto, unfolding(crate::specs::Steps::freed_of))]
fn freed(cell: u64, st: RuleState) -> Stepped
    ensures { result ≡ freed_of cell st }
{
    Stepped {
        state: RuleState {
            fragment: tables::fragment_in(cell),
            states: [IDLE; 8],
            end: st.end,
            ..RuleState::default()
        },
        standing: Standing::Whole,
    }
}

// The cell of a name.
fn cell_at(table: &Table, rule: usize, name: u8) -> u64
    ensures { result ≡ cell_in table.now (rule % 16) name }
{
    table[tables::CELLS + tables::NAMES * (rule % 16) + usize::from(name % 64)]
}

// An event on one of rule r's names. The first range of a fragment that has begun is neither idle nor not begun: it tells a rule at rest.
pub fn act(table: &Table, r: usize, st: RuleState, name: u8, time: u32) -> Stepped
    ensures { result ≡ act_of table.now (r % 16) st name time }
{
    let states = st.states;
    if states[0] == IDLE {
        return Stepped {
            state: st,
            standing: Standing::Whole,
        };
    }
    let cell = cell_at(table, r, name);
    let limit = tables::time(table[tables::HEADS + r % 16]);
    let x = seen_at(cell, limit, st, time);
    let before = x.state;
    let how = x.seen;
    match how {
        Seen::Error => broken(st),
        Seen::Releases => freed(cell, st),
        Seen::Taken => takes(cell, before, time),
    }
}
