// The recogniser of a range (document 01): one move, in document 01's numbers, and the count one event later. Every number stands for a state, a class or a join, so nothing is asked of them.
// `next_state` is what a caller asks. Its inside is a formula (document 02, change 4): no table is looked up, and no branch is taken where the compiler selects, as it does on x86-64.
#![tactic(auto)]

ghost use Rattle.std.specs.Prelude.{◌≡◌, cond, ◌||◌, ◌+◌, leb, ltb, eqb};
ghost use Rattle.pattern.specs.Meaning.{may_be_left_out, shuffled};
ghost use Rattle.recogniser.specs.Numbers.{join_of, next_state};
ghost use Rattle.recogniser.specs.Formula.{set_of, takers_of, leads_to, formula};
ghost use Rattle.recogniser.specs.Counts.{saturated};

// "0 idle, 1 fragment not begun, 2 waiting while a sibling has begun, 3 counting, 4 done, 5 error". Numbers, and not an enum: `next_state`, `is_shuffled` and `may_be_left_out` take any number.
pub const IDLE: u8 = 0;

pub const UNBEGUN: u8 = 1;

pub const WAITING: u8 = 2;

pub const COUNTING: u8 = 3;

pub const DONE: u8 = 4;

pub const ERROR: u8 = 5;

// "own, sibling (same fragment), next (a name of the following fragment; ..) or other".
pub const OWN: u8 = 0;

pub const SIBLING: u8 = 1;

pub const NEXT: u8 = 2;

pub const OTHER: u8 = 3;

// The join of a fragment whose blocks stand in a row: "0 all".
pub const ALL: u8 = 0;

// One number where a condition holds, another where it does not: a function, so that both are there and the compiler selects.
fn select(holds: bool, yes: u8, no: u8) -> u8
    ensures { result ≡ cond holds yes no }
{
    if holds { yes } else { no }
}

// ---- the four conditions of the moves

// A range that has not begun may be left out of a fragment of this join: "0 all, 1 any", "2 all shuffled and 3 any shuffled".
pub fn may_be_left_out(join: u8) -> bool
    ensures { result ≡ may_be_left_out (join_of join) }
{
    join % 2 == 1
}

// Its blocks need not be in a row.
pub fn is_shuffled(join: u8) -> bool
    ensures { result ≡ shuffled (join_of join) }
{
    join / 2 % 2 == 1
}

// "count ≥ u".
fn has_enough(count: u16, u: u16) -> bool
    ensures { result ≡ leb u count }
{
    u <= count
}

// "count < v", and where v is 0 always: "v = 0 means that u or more occurrences are allowed".
fn has_room(count: u16, v: u16) -> bool
    ensures { result ≡ (eqb v 0 || ltb count v) }
{
    (v == 0) | (count < v)
}

// ---- the formula: which states take an event of a class without error, and where it leads them

// A set of states, with bit s for state s. "0 and 5 stay": neither is in any.
fn set_of(unbegun: bool, waiting: bool, counting: bool, done: bool) -> u8
    ensures { result ≡ set_of unbegun waiting counting done }
{
    2 * u8::from(unbegun) + 4 * u8::from(waiting) + 8 * u8::from(counting) + 16 * u8::from(done)
}

// The states that take an event of a class. 1 takes *own* and *sibling*; 2 these and, where it may be left out, *next*; 3 *own* where it has room, *sibling* where blocks are shuffled or it has
// enough, and *next* where it has enough; 4 *sibling* and *next*.
fn takers(class: u8, room: bool, enough: bool, optional: bool, shuffled: bool) -> u8
    ensures { result ≡ takers_of class room enough optional shuffled }
{
    let own = class == OWN;
    let sibling = class == SIBLING;
    let next = class == NEXT;
    set_of(
        own | sibling,
        own | sibling | (next & optional),
        (own & room) | (sibling & (shuffled | enough)) | (next & enough),
        sibling | next,
    )
}

// Where it leads such a state. *own*: to 3; *sibling*: from 1 to 2, from 3, unless blocks are shuffled, to 4, and the others stay; *next*: to 0.
fn leads_to(state: u8, class: u8, shuffled: bool) -> u8
    ensures { result ≡ leads_to state class shuffled }
{
    let closed = select((state == COUNTING) & !shuffled, DONE, state);
    let beside = select(state == UNBEGUN, WAITING, closed);
    let not_own = select(class == SIBLING, beside, IDLE);
    select(class == OWN, COUNTING, not_own)
}

// Idle stays, and a state that does not take the event is an error.
#[tactic(auto, unfolding(crate::specs::Formula::formula))]
fn formula(room: bool, enough: bool, optional: bool, shuffled: bool, state: u8, class: u8) -> u8
    ensures { result ≡ formula room enough optional shuffled state class }
{
    let taken = masks::holds(takers(class, room, enough, optional, shuffled), state);
    let to = select(taken, leads_to(state, class, shuffled), ERROR);
    select(state == IDLE, IDLE, to)
}

// The state after an event of a class, for a range with bounds u and v in a fragment of this join, where count of its events have come. Every number above 5 is an error, and above 3 other.
pub fn next_state(state: u8, class: u8, join: u8, count: u16, u: u16, v: u16) -> u8
    ensures { result ≡ next_state state class join count u v }
{
    formula(
        has_room(count, v),
        has_enough(count, u),
        may_be_left_out(join),
        is_shuffled(join),
        state.min(ERROR),
        class.min(OTHER),
    )
}

// ---- the count

// What is stored of a count, so many events later. "Counts may stop rising once u is reached": this one stops at 65,535, which no u and no v of a sheet is above, so that it asks for no bound.
// The compiler has one instruction for the sums of eight counts.
#[tactic(auto, unfolding(crate::specs::Counts::saturated))]
pub fn saturating_sum(count: u16, more: u16) -> u16
    ensures { result ≡ saturated (count + more) }
{
    count.saturating_add(more)
}
