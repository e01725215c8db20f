// The monitor of a book (document 01, "Observing"): its memory is lent and changed in place, and the book's table is lent by reference. The code of an observation is crate
// `observing`, that of a fresh monitor crate `opening`; here stands what they promise for the book of a sheet.
// The same monitor as a value is crate `value`.
#![tactic(auto)]

ghost use Rattle.std.specs.Prelude.{◌≡◌};
ghost use Rattle.words.specs.Words.{Held, held_by};
ghost use Rattle.answers.specs.declared.Observation.TheVariants.{Event, Clock};
ghost use Rattle.monitor.specs.Promise.{in_memory, Observes, Freshes, Says};

use answers::{Answer, Observation, Verdict};
use tables::Table;
use words::Memory;

// One observation of a monitor in place, under the book whose table is lent: the judge's answer, and the memory then holds a monitor that follows what the judge then keeps. A refused
// observation leaves every byte as it was, and so does each one after a break.
// For a table or bytes that these calls did not make, or a monitor opened for another book, the verdict is the program's choice; the answer is one of the four, and refused exactly as the
// numbers in the memory say. The call returns, and touches nothing but the memory.
#[tactic(auto, using(crate::proofs::Observing::promise))]
pub fn observe(table: &Table, m: &mut Memory, o: Observation) -> Answer
    ensures { Observes in_memory table.now m.old o result m.new }
{
    observing::observed_by(table, m, o)
}

// The same of an event, whose name may be any number; and of a clock reading.
#[tactic(auto, using(crate::proofs::Observing::promise))]
pub fn note(table: &Table, m: &mut Memory, name: u32, time: u32) -> Answer
    ensures { Observes in_memory table.now m.old (Event name time) result m.new }
{
    observing::noted(table, m, name, time)
}

#[tactic(auto, using(crate::proofs::Observing::promise))]
pub fn tick(table: &Table, m: &mut Memory, time: u32) -> Answer
    ensures { Observes in_memory table.now m.old (Clock time) result m.new }
{
    observing::ticked(table, m, time)
}

// A fresh monitor: it follows the judge that has kept nothing, under every book.
#[tactic(auto, using(crate::proofs::Agreement::fresh_promise))]
pub fn fresh() -> Memory
    ensures { Freshes in_memory result }
{
    opening::unstarted()
}

// The verdict that a monitor holds.
pub fn verdict(m: &Memory) -> Verdict
    ensures { Says result (held_by m.now) }
{
    verdict_by(words::verdict(m), words::taken(m), words::mask(m))
}

// The verdict by the numbers that a monitor keeps of it, which may be any: 2 is broken, at the last observation taken; 1 is open; every other is whole.
pub fn verdict_by(number: u8, taken: u32, mask: u16) -> Verdict
    ensures { (m : Held) → m.verdict ≡ number → m.taken ≡ taken → m.mask ≡ mask → Says result m }
{
    match number {
        2 => Verdict::Broken(taken, mask),
        1 => Verdict::Open(mask),
        _ => Verdict::Whole,
    }
}

// The number of observations that a monitor has taken.
pub fn count(m: &Memory) -> u32
    ensures { result ≡ (held_by m.now).taken }
{
    words::taken(m)
}
