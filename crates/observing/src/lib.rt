// One observation of a book's monitor (document 01, "Observing"), for every table and every monitor: the monitor's memory is lent and changed in place, and the book's table is lent by
// reference. What it makes of the rules is crate `rules`, what it answers crate `answers`; what it means for the book of a sheet is crate `monitor`.
#![tactic(auto)]

ghost use Rattle.std.specs.Prelude.{◌≡◌, ◌≢◌, MatchOption};
ghost use Rattle.words.specs.Words.{held_by};
ghost use Rattle.answers.specs.Observe.{Admits, Leaves};
ghost use Rattle.answers.specs.declared.Observation.TheVariants.{Event, Clock};
ghost use Rattle.answers.specs.declared.Verdict.TheVariants.{Broken};

use answers::{Answer, Observation, Refusal, Verdict};
use tables::Table;
use words::Memory;

// "A stopped book gives that same answer to every later observation, unchecked." The verdict is a number here, since memory may hold any: 2 is broken.
fn stopped(m: &Memory) -> Option<Verdict>
    ensures { MatchOption result ((held_by m.now).verdict ≢ 2) (λ v. ((held_by m.now).verdict ≡ 2) × (v ≡ Broken (held_by m.now).taken (held_by m.now).mask)) }
{
    match words::verdict(m) {
        2 => Some(Verdict::Broken(words::taken(m), words::mask(m))),
        _ => None,
    }
}

// The number of an observation at a time, by a book that has not stopped: "11 (a time before the latest) and 13 (4,294,967,295 already taken)", in this order.
fn admitted(m: &Memory, time: u32) -> Result<u32, Refusal>
    ensures { Admits (held_by m.now) time result }
{
    if time < words::latest(m) {
        return Err(Refusal::FallingTime);
    }
    // No `checked_add`: with it an event took one instruction more for each rule.
    let before = words::taken(m);
    if before == u32::MAX {
        return Err(Refusal::FullCount);
    }
    Ok(before + 1)
}

// An event. A name of 64 or more is refused, so that the table has the name; then a time before the latest one, and a full count: "A refused one answers its refusal number alone and
// changes nothing."
pub fn noted(table: &Table, m: &mut Memory, name: u32, time: u32) -> Answer
    ensures { Leaves table.now m.old (Event name time) result m.new }
{
    if let Some(verdict) = stopped(m) {
        return Ok(verdict);
    }
    if 64 <= name {
        return Err(Refusal::BadName);
    }
    let concerned = tables::mask_in(table[name as usize]);
    let k = admitted(m, time)?;
    let opens = words::mask(m);
    let dues = words::dues(m);
    let p = rules::looked(table, m, concerned, opens, dues, name as u8, time);
    Ok(answers::judged(m, p, k, time))
}

// A clock reading. It concerns no rule, so that none steps.
pub fn ticked(table: &Table, m: &mut Memory, time: u32) -> Answer
    ensures { Leaves table.now m.old (Clock time) result m.new }
{
    if let Some(verdict) = stopped(m) {
        return Ok(verdict);
    }
    let k = admitted(m, time)?;
    let opens = words::mask(m);
    let dues = words::dues(m);
    let p = rules::held(table, m, opens, dues, time);
    Ok(answers::judged(m, p, k, time))
}

// One observation, for every table and every monitor.
pub fn observed_by(table: &Table, m: &mut Memory, o: Observation) -> Answer
    ensures { Leaves table.now m.old o result m.new }
{
    match o {
        Observation::Event(name, time) => noted(table, m, u32::from(name), time),
        Observation::Clock(time) => ticked(table, m, time),
    }
}
