// The sixteen rules at one observation (document 01, "Observing"): the monitor's memory is lent and changed in place, and the book's table is lent by reference. Only the bytes of
// the rules that the observation concerns are read or written, and the state of each goes by value.
#![tactic(auto)]

ghost use Rattle.std.specs.Prelude.{◌≡◌, ℕ, ◌<◌, get_or};
ghost use Rattle.step.specs.Steps.{act_of};
ghost use Rattle.words.specs.Words.{no_state, Held, held_by, Holds};
ghost use Rattle.rules.specs.Pass.{marks_of, waited_of, pass_of, Marks, Steps, Waits, StepsAll, Tells, Passes};

use step::Standing;
use tables::Table;
use words::Memory;

// ---- three masks in one word

// How a rule stands, as the lowest bits of three masks: of the rules that broke (bit 0), are open (16), and have a deadline that runs (32). Three masks in one word cost one shift and
// one `or` for a rule, and one register.
#[tactic(auto, unfolding(crate::specs::Pass::marks_of))]
fn marks(standing: Standing) -> u64
    ensures { result ≡ marks_of standing }
{
    match standing {
        Standing::Whole => 0,
        Standing::Open => 1 << 16,
        Standing::Due => 1 << 16 | 1 << 32,
        Standing::Broken => 1,
    }
}

// The three masks with rule r in those that its standing says.
fn marked(all: u64, r: usize, standing: Standing) -> u64
    requires { r < 16 }
    ensures { Marks all r standing result }
{
    all | marks(standing) << r
}

// ---- one rule: its number is below 16, as `masks::each` gives it, and is no type of its own, which every table and shift would take apart again

// Rule r, which has the name, steps; how it then stands.
fn stepped(table: &Table, m: &mut Memory, r: usize, name: u8, time: u32) -> Standing
    requires { r < 16 }
    ensures { (was : Held) → Holds m.old was → Steps (act_of table.now r (get_or was.rules r no_state) name time) r was result m.new }
{
    let s = step::act(table, r, words::load(m, r), name, time);
    words::store(m, r, s.state);
    s.standing
}

// How rule r, whose deadline runs, stands at a time. Its state stays.
fn waited(table: &Table, m: &Memory, r: usize, time: u32) -> Standing
    requires { r < 16 }
    ensures { result ≡ (waited_of table.now r (get_or (held_by m.now).rules r no_state) time).standing }
{
    let limit = tables::time(table[tables::HEADS + r]);
    if deadline::overdue(limit, words::end_of(m, r), time) {
        Standing::Broken
    } else {
        Standing::Due
    }
}

// ---- the rules of a mask, one by one: two loops and not one over a closure, whose contract would have to say what each call leaves of the memory

// Each rule is held to its deadline.
fn all_waited(table: &Table, m: &Memory, who: u16, time: u32) -> u64
    ensures { Waits table.now who time (held_by m.now).rules result }
{
    let mut all = 0;
    for r in masks::each(who) {
        all = marked(all, r, waited(table, m, r, time));
    }
    all
}

// Each rule steps; its standing goes to those noted before.
fn all_stepped(table: &Table, m: &mut Memory, noted: u64, who: u16, name: u8, time: u32) -> u64
    ensures { (was : Held) → Holds m.old was → StepsAll table.now noted who name time was result m.new }
{
    let mut all = noted;
    for r in masks::each(who) {
        all = marked(all, r, stepped(table, m, r, name, time));
    }
    all
}

// The masks of the rules that broke at an observation, are open after it, and have a deadline that runs.
#[derive(Drop)]
pub struct Masks {
    pub broken: u16,
    pub opens: u16,
    pub dues: u16,
}

// The three masks of a word; `left` are the open rules that were not looked at.
fn told(all: u64, left: u16) -> Masks
    ensures { Tells all left result }
{
    Masks {
        broken: (all % 65536) as u16,
        opens: masks::union(left, (all / 65536 % 65536) as u16),
        dues: (all / 4294967296 % 65536) as u16,
    }
}

// An observation that concerns no rule, a clock reading or an event on a name that no rule has: the rules whose deadline runs are held to it, and no rule's state changes.
pub fn held(table: &Table, m: &Memory, opens: u16, dues: u16, time: u32) -> Masks
    ensures { (name : ℕ) (was : Held) → Holds m.now was → Passes (pass_of table.now 0 opens dues was.rules name time) was result m.now }
{
    let all = all_waited(table, m, dues, time);
    told(all, masks::without(opens, dues))
}

// The rules that have the name step, and those whose deadline runs are held to it; each other rule stays as it is, open if it was open. An observation that concerns no rule ends before
// anything that steps one.
pub fn looked(
    table: &Table,
    m: &mut Memory,
    concerned: u16,
    opens: u16,
    dues: u16,
    name: u8,
    time: u32,
) -> Masks
    ensures { (was : Held) → Holds m.old was → Passes (pass_of table.now concerned opens dues was.rules name time) was result m.new }
{
    if concerned == 0 {
        return held(table, m, opens, dues, time);
    }
    let waits = all_waited(table, m, masks::without(dues, concerned), time);
    let all = all_stepped(table, m, waits, concerned, name, time);
    told(all, masks::without(opens, masks::union(concerned, dues)))
}
