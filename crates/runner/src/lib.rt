// A run over a log (document 01, "Running a log"): records are observed one after the other, from a fresh monitor, until a refusal, a break, the budget or the log's end.
// The monitor's memory is the run's own and is changed in place; the book's table is lent by reference.
#![tactic(auto)]

ghost use Rattle.std.specs.Prelude.{◌≡◌, ◌*◌, ◌≤◌, length};
ghost use Rattle.words.specs.Words.{held_by};
ghost use Rattle.answers.specs.Cases.{said};
ghost use Rattle.monitor.specs.Promise.{verdict_in};
ghost use Rattle.runner.specs.Log.{ended, open_mask, refused_at, turned_away};
ghost use Rattle.runner.specs.Runs.{Runs, Plays, Turns, ended_in};

use answers::{Observation, Verdict};
use tables::Table;
use words::Memory;

// ---- the five numbers

// Answer (0 whole, 1 open, 2 broken, 3 refused), refusal or 0, mask, taken, place: numbers, since a run's five numbers are what the definition gives (`numbers`), and what C and the log line
// are given.
#[derive(Drop)]
pub struct Outcome {
    pub answer: u8,
    pub refusal: u8,
    pub mask: u16,
    pub taken: u32,
    pub place: u32,
}

// What a verdict says: "Mask is 0 for whole"; "Place is k for broken".
fn told(v: Verdict, taken: u32) -> Outcome
    ensures { result ≡ ended (said v) taken }
{
    let (answer, mask, place) = match v {
        Verdict::Whole => (0, 0, 0),
        Verdict::Open(mask) => (1, mask, 0),
        Verdict::Broken(k, mask) => (2, mask, k),
    };
    Outcome {
        answer,
        refusal: 0,
        mask,
        taken,
        place,
    }
}

// A refusal before any record: "nothing is taken".
pub fn turned_away(number: u8, place: u32) -> Outcome
    ensures { result ≡ turned_away number place }
{
    Outcome {
        answer: 3,
        refusal: number,
        mask: 0,
        taken: 0,
        place,
    }
}

// What a monitor says once nothing more is looked at: its verdict, which is no refusal.
fn ended(m: &Memory) -> Outcome
    ensures { result ≡ ended_in m.now }
{
    told(monitor::verdict(m), monitor::count(m))
}

// The mask of the open rules: 0 where the verdict is another.
fn open_mask(m: &Memory) -> u16
    ensures { result ≡ open_mask (verdict_in (held_by m.now)) }
{
    match monitor::verdict(m) {
        Verdict::Open(mask) => mask,
        Verdict::Whole | Verdict::Broken(_, _) => 0,
    }
}

// A refused record: "after a record's refusal it is the open mask just before"; the place is the record's offset.
fn refused_at(number: u8, m: &Memory, at: u32) -> Outcome
    ensures { result ≡ refused_at number (verdict_in (held_by m.now)) (held_by m.now).taken at }
{
    Outcome {
        mask: open_mask(m),
        taken: monitor::count(m),
        ..turned_away(number, at)
    }
}

// ---- the records one after the other

// One record's observation, and what the run says if it stops there: "Only a refusal or a break stops" the run.
fn turn(table: &Table, m: &mut Memory, o: Observation, at: u32) -> Option<Outcome>
    ensures { Turns table.now m.old o at result m.new }
{
    match monitor::observe(table, m, o) {
        Ok(Verdict::Whole | Verdict::Open(_)) => None,
        Ok(Verdict::Broken(k, mask)) => Some(told(Verdict::Broken(k, mask), monitor::count(m))),
        Err(why) => Some(refused_at(why.number(), m, at)),
    }
}

// At most n records, from a fresh monitor on.
fn play(table: &Table, log: &[u8], n: u32) -> Outcome
    requires { (5 * n ≤ length log.now) × (length log.now ≤ 4294967295) }
    ensures { Plays table.now log.now n result }
{
    let mut m = monitor::fresh();
    for i in 0..n {
        let at = 5 * i;
        let o = records::record_from(log, at as usize);
        if let Some(outcome) = turn(table, &mut m, o, at) {
            return outcome;
        }
    }
    ended(&m)
}

// A run over a log under the book whose table is lent: 14 if the log is no list of records, where "for 14 it is 0"; else the judge's answers to its records, up to the budget: it "takes at
// most a given budget of records".
// For a table of no sheet's book the verdict is the program's choice; refusals, the number taken and the place are as for any other. The call returns, and touches nothing.
pub fn run(table: &Table, log: &[u8], budget: u32) -> Outcome
    ensures { Runs table.now log.now budget result }
{
    let Ok(len) = u32::try_from(log.len()) else {
        return turned_away(14, 0);
    };
    if len % 5 != 0 {
        return turned_away(14, 0);
    }
    play(table, log, budget.min(len / 5))
}
