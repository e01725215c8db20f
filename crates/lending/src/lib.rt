// Callers of the session in Rattle (document 01: "The host's session keeps one monitor, lent to the guard and changed in place"): each takes a monitor, keeps it in a local, and lends the
// local for one of the session's calls, by `&mut` or by `&`. They rest on the session's promises alone.
#![tactic(auto)]

ghost use Rattle.std.specs.Prelude.{◌≡◌};
ghost use Rattle.monitor.specs.Promise.{Observes, Says};
ghost use Rattle.value.specs.Value.{numbers_of, by_value};

use answers::{Observation, Verdict};
use tables::Table;
use value::{Answered, Monitor};

// One observation of the monitor that is handed over, under the book whose table is lent: the answer, and the monitor that the call left in the local that was lent to it.
pub fn observed(m: Monitor, table: &Table, o: Observation) -> Answered
    ensures { Observes by_value table.now m o result.answer result.monitor }
{
    let mut s = m;
    let answer = session::observe(&mut s, table, o);
    Answered { monitor: s, answer }
}

// The verdict that the monitor which is handed over holds: a local is lent to be read.
pub fn verdict_of(m: Monitor) -> Verdict
    ensures { Says result (numbers_of m) }
{
    let s = m;
    session::verdict(&s)
}

// The number of observations that the monitor which is handed over has taken: a local is lent to be read.
pub fn taken_by(m: Monitor) -> u32
    ensures { result ≡ m.taken }
{
    let s = m;
    session::taken(&s)
}
