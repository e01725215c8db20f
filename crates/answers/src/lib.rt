// What is observed and what it is answered (document 01, "Observing"), for every table and every monitor: an observation, an answer, and the verdict that the rules' masks give, which is
// stored in the monitor's memory. What one observation comes to, refusals too, is `specs/Observe`; crate `observing` has its code.
#![tactic(auto)]

ghost use Rattle.std.specs.Prelude.{◌≡◌};
ghost use Rattle.answers.specs.Cases.{number_of};
ghost use Rattle.answers.specs.Observe.{Judges};

use rules::Masks;
use words::Memory;

// "an event or a clock reading (a time alone)"
#[derive(Clone, Copy, PartialEq, Eq)]
pub enum Observation {
    Event(u8, u32),
    Clock(u32),
}

// The verdict on an observation that is taken: the mask of the open rules; or the number taken and the mask of the rules that broke.
#[derive(Clone, Copy, PartialEq, Eq)]
pub enum Verdict {
    Whole,
    Open(u16),
    Broken(u32, u16),
}

// Why an observation is refused, in the order in which it is looked for: "12 (a name of 64 or more), 11 (a time before the latest) and 13 (4,294,967,295 already taken)".
#[derive(Clone, Copy, PartialEq, Eq)]
pub enum Refusal {
    BadName,
    FallingTime,
    FullCount,
}

impl Refusal {
    // Its number.
    pub fn number(self) -> u8
        ensures { result ≡ number_of self }
    {
        match self {
            Refusal::BadName => 12,
            Refusal::FallingTime => 11,
            Refusal::FullCount => 13,
        }
    }
}

pub type Answer = Result<Verdict, Refusal>;

// "If rules break at it, the book stops: the answer is broken, k and a 16-bit mask of the rules broken at k." "Otherwise the answer is open with the mask of open rules, or whole if that mask is 0."
// In memory a verdict is its number, 0, 1 or 2, beside its mask.
pub fn judged(m: &mut Memory, p: Masks, k: u32, time: u32) -> Verdict
    ensures { Judges m.old p k time result m.new }
{
    let Masks {
        broken,
        opens,
        dues,
    } = p;
    if broken != 0 {
        words::settle(m, k, time, 2, broken, dues);
        return Verdict::Broken(k, broken);
    }
    if opens != 0 {
        words::settle(m, k, time, 1, opens, dues);
        return Verdict::Open(opens);
    }
    words::settle(m, k, time, 0, 0, dues);
    Verdict::Whole
}
