// The monitor as a value (document 01, "What to write where": "Per-rule state struct holding an array of eight recogniser states, passed and returned by value"), for a session that keeps
// one. Its calls put it into memory, make the calls of crate `monitor` there and take it out again, and promise the same.
#![tactic(auto)]

ghost use Rattle.std.specs.Prelude.{◌≡◌};
ghost use Rattle.words.specs.Words.{held_by, Holds, nothing_taken};
ghost use Rattle.monitor.specs.Promise.{Observes, Freshes, Says};
ghost use Rattle.value.specs.Value.{numbers_of, by_value};

use answers::{Answer, Observation, Verdict};
use rule_state::RuleState;
use tables::Table;
use words::Memory;

// "The monitor's state holds, for each rule, its fragment number, eight recogniser states, .. and the end time of P", and "eight counts for a fragment where it kept one" (document 02,
// change 1). Beside the sixteen: the number taken, the latest time, the verdict (0 whole, 1 open, 2 broken) with its mask, and the rules whose deadline runs. They are the numbers that
// memory holds (`numbers_of`), and a caller may have made any, so the verdict stays a number.
#[derive(Clone, Copy)]
pub struct Monitor {
    pub rules: [RuleState; 16],
    pub taken: u32,
    pub latest: u32,
    pub verdict: u8,
    pub mask: u16,
    pub dues: u16,
}

// A monitor after an observation, and the answer. No `Result`: a monitor comes with each answer, also with a refusal.
#[derive(Drop)]
pub struct Answered {
    pub monitor: Monitor,
    pub answer: Answer,
}

// Sixteen states in memory, and nothing beside them.
fn rules_in_memory(rules: &[RuleState; 16]) -> Memory
    ensures { Holds result (nothing_taken rules.now) }
{
    let mut w = [0u8; words::LENGTH];
    for (r, st) in rules.iter().enumerate() {
        words::store(&mut w, r, *st);
    }
    w
}

// A monitor in memory.
fn in_memory(m: &Monitor) -> Memory
    ensures { Holds result (numbers_of m.now) }
{
    let mut w = rules_in_memory(&m.rules);
    words::settle(&mut w, m.taken, m.latest, m.verdict, m.mask, m.dues);
    w
}

// The sixteen states that a memory holds.
fn rules_of(w: &Memory) -> [RuleState; 16]
    ensures { result ≡ (held_by w.now).rules }
{
    // No `array::from_fn`: what it promises does not tie the closure of a call to the one that it was given, and the proof did not close. Each state is put over the first one.
    let mut rules = [words::load(w, 0); 16];
    for (r, st) in rules.iter_mut().enumerate() {
        *st = words::load(w, r);
    }
    rules
}

// The monitor that a memory holds.
fn of_memory(w: &Memory) -> Monitor
    ensures { numbers_of result ≡ held_by w.now }
{
    Monitor {
        rules: rules_of(w),
        taken: words::taken(w),
        latest: words::latest(w),
        verdict: words::verdict(w),
        mask: words::mask(w),
        dues: words::dues(w),
    }
}

// One observation by value: what `monitor::observe` does in memory.
#[tactic(auto, using(crate::proofs::Values::turns))]
pub fn step(table: &Table, m: Monitor, o: Observation) -> Answered
    ensures { Observes by_value table.now m o result.answer result.monitor }
{
    let mut w = in_memory(&m);
    let answer = monitor::observe(table, &mut w, o);
    let monitor = of_memory(&w);
    Answered { monitor, answer }
}

// A fresh monitor.
#[tactic(auto, using(crate::proofs::Values::starts))]
pub fn start() -> Monitor
    ensures { Freshes by_value result }
{
    let w = monitor::fresh();
    of_memory(&w)
}

// The verdict that a monitor holds.
pub fn verdict_of(m: Monitor) -> Verdict
    ensures { Says result (numbers_of m) }
{
    monitor::verdict_by(m.verdict, m.taken, m.mask)
}

// The number of observations that a monitor has taken.
pub fn taken_by(m: Monitor) -> u32
    ensures { result ≡ m.taken }
{
    m.taken
}
