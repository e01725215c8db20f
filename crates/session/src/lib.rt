// A host's session (document 01, "Observing"): one monitor, lent to the guard and changed in place. Each call takes the state out, calls the monitor part by value and puts what it returns
// back; it rests on that part's promises alone.
#![tactic(auto)]

ghost use Rattle.std.specs.Prelude.{◌≡◌};
ghost use Rattle.monitor.specs.Promise.{Observes, Freshes, Says};
ghost use Rattle.value.specs.Value.{numbers_of, by_value};
ghost use Rattle.session.specs.Session.{Opens};

use answers::{Answer, Observation, Verdict};
use book::Book;
use fields::Refused;
use tables::Table;
use value::{Answered, Monitor};

// Reads a sheet from any bytes: the book of an accepted one takes the place of the book that is lent, and a fresh monitor for it that of the monitor. "A refused sheet gives no monitor": then
// both stay as they were.
pub fn open_sheet(bytes: &[u8], book: &mut Book, monitor: &mut Monitor) -> Result<(), Refused>
    ensures { Opens bytes.now (record { book = book.old; monitor = monitor.old }) result (record { book = book.new; monitor = monitor.new }) }
{
    *book = book::translate(bytes)?;
    *monitor = value::start();
    Ok(())
}

// Puts a fresh monitor, for whatever book, in the place of what stands there.
pub fn start(m: &mut Monitor)
    ensures { Freshes by_value m.new }
{
    *m = value::start();
}

// One observation of the session's monitor under the book whose table is lent: the judge's answer, and the monitor is left as one that follows what the judge then keeps. A
// refused observation leaves it equal, and so does each one after a break.
// For a table or a monitor that these calls did not make, or a monitor that has observed under another book, the verdict is the program's choice; the
// answer is one of the four, and refused exactly as the monitor's own numbers say. The call returns, and touches nothing but the monitor.
pub fn observe(m: &mut Monitor, table: &Table, o: Observation) -> Answer
    ensures { Observes by_value table.now m.old o result m.new }
{
    let Answered { monitor, answer } = value::step(table, *m, o);
    *m = monitor;
    answer
}

// The verdict that the session's monitor holds. It is read, and not changed.
pub fn verdict(m: &Monitor) -> Verdict
    ensures { Says result (numbers_of m.now) }
{
    value::verdict_of(*m)
}

// The number of observations that the session's monitor has taken. It is read, and not changed.
pub fn taken(m: &Monitor) -> u32
    ensures { result ≡ m.now.taken }
{
    value::taken_by(*m)
}
