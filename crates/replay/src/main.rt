// Replays observations through the exported calls and writes each answer: a sheet is translated, a monitor opened, and records are observed one after the other, each on what the
// last one left. Every case is replayed twice, by value and through the session, to which the monitor is lent; each writes a line. tests/traces/make.py made the cases and says what is due. A case in the input is the monitor's taken count to start from (u32), the sheet's length (u16), the number
// of records (u16), all little-endian, the sheet's bytes, and for each record a name or 255 for a clock reading and a time (u32).
#![tactic(auto)]

ghost use Rattle.std.specs.Prelude.{◌+◌, ◌≤◌, length, IfSome};
ghost use Rattle.std.specs.Iterator.{at_most};

use answers::{Answer, Observation, Verdict};
use std::{fmt, io};
use tables::Table;
use value::{Answered, Monitor};

// ---- the input

#[derive(Clone, Copy)]
struct Case<'a> {
    taken: u32,
    sheet: &'a [u8],
    records: &'a [u8],
}

// The first case of the input, and what comes after it.
fn split_case(input: &[u8]) -> Option<(Case<'_>, &[u8])>
    ensures { IfSome result (λ p. length p.1.now + 8 ≤ length input.now) }
{
    let (head, rest) = input.split_first_chunk::<8>()?;
    let [t0, t1, t2, t3, n0, n1, k0, k1] = *head;
    let bytes = usize::from(u16::from_le_bytes([n0, n1]));
    let count = usize::from(u16::from_le_bytes([k0, k1]));
    let (sheet, rest) = rest.split_at_checked(bytes)?;
    let (records, rest) = rest.split_at_checked(5 * count)?;
    let taken = u32::from_le_bytes([t0, t1, t2, t3]);
    let case = Case {
        taken,
        sheet,
        records,
    };
    Some((case, rest))
}

// The cases of the input that is left.
#[derive(Drop)]
struct Cases<'a>(&'a [u8]);

impl<'a> Iterator for Cases<'a> {
    type Item = Case<'a>;

    ghost remaining = { λ s. at_most (length s.0.now) };

    fn next(&mut self) -> Option<Case<'a>> {
        let (case, rest) = split_case(self.0)?;
        self.0 = rest;
        Some(case)
    }
}

// ---- the calls

// The exported calls, for a caller that keeps a monitor.
trait Calls {
    fn observed(table: &Table, m: Monitor, o: Observation) -> Answered;

    fn verdict_of(m: Monitor) -> Verdict;

    fn taken_by(m: Monitor) -> u32;
}

// The monitor is handed over.
struct ByValue;

impl Calls for ByValue {
    fn observed(table: &Table, m: Monitor, o: Observation) -> Answered {
        value::step(table, m, o)
    }

    fn verdict_of(m: Monitor) -> Verdict {
        value::verdict_of(m)
    }

    fn taken_by(m: Monitor) -> u32 {
        value::taken_by(m)
    }
}

// The monitor is lent to the session.
struct ByLending;

impl Calls for ByLending {
    fn observed(table: &Table, m: Monitor, o: Observation) -> Answered {
        lending::observed(m, table, o)
    }

    fn verdict_of(m: Monitor) -> Verdict {
        lending::verdict_of(m)
    }

    fn taken_by(m: Monitor) -> u32 {
        lending::taken_by(m)
    }
}

// ---- the answers

// w whole, o with the mask of the open rules, b with k and the mask of the rules broken, r with the refusal's number.
#[derive(Drop)]
struct Told(Answer);

impl fmt::Display for Told {
    fn fmt<W: fmt::Write>(&self, f: &mut fmt::Formatter<W>) -> fmt::Result {
        match self.0 {
            Ok(Verdict::Whole) => write!(f, "w"),
            Ok(Verdict::Open(mask)) => write!(f, "o{mask}"),
            Ok(Verdict::Broken(k, mask)) => write!(f, "b{k}:{mask}"),
            Err(why) => write!(f, "r{}", why.number()),
        }
    }
}

// Replays a case, and writes a word for each record, and after them the verdict and the number taken.
fn replay<C: Calls>(rt: &impl Print, case: &Case) -> io::Result<()> {
    let b = cases::book_of(case.sheet);
    let mut m = value::start();
    m.taken = case.taken;
    let (records, _) = case.records.as_chunks::<5>();
    for record in records {
        let answered = C::observed(&b.table, m, records::record_from(record, 0));
        print!(rt; " {}", Told(answered.answer))?;
        m = answered.monitor;
    }
    println!(rt; " | {} {}", Told(Ok(C::verdict_of(m))), C::taken_by(m))
}

fn replay_all(rt: &impl Print, input: &[u8]) -> io::Result<()> {
    for case in Cases(input) {
        replay::<ByValue>(rt, &case)?;
        replay::<ByLending>(rt, &case)?;
    }
    Ok(())
}

fn main(rt: HostRuntime) -> io::Result<()> {
    let mut buffer = [0u8; 65536];
    replay_all(&rt, input::read_slice(&mut rt.reader(), &mut buffer))
}
