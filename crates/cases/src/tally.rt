// How many cases and plays are due, of each kind, and how many of them agree.
use crate::answer::Answer;
use crate::play;
use std::io;

// A count for each kind: all cases, the answers 0 to 3, the refusals 0 to 15, what a break came by, 0 to 3, the books written back, and the plays: rounds, refusals 17 and refusals 18.
#[derive(Clone, Copy, Default)]
pub struct Counts {
    pub cases: u32,
    pub answers: [u32; 4],
    pub refusals: [u32; 16],
    pub causes: [u32; 4],
    pub written: u32,
    pub rounds: u32,
    pub no_rule: u32,
    pub too_long: u32,
}

// One more; nothing where the count is full.
fn bump(count: &mut u32) {
    *count = count.saturating_add(1);
}

// One more of a value; nothing where there is no count for it.
fn bump_value(counts: &mut [u32], value: u8) {
    if let Some(count) = counts.get_mut(usize::from(value)) {
        bump(count);
    }
}

impl Counts {
    // One more case with this answer, and what its break came by.
    pub(crate) fn count(&mut self, answer: &Answer, cause: u8) {
        bump(&mut self.cases);
        bump_value(&mut self.answers, answer.answer);
        bump_value(&mut self.refusals, answer.refusal);
        bump_value(&mut self.causes, cause);
    }

    // One more book that is written back.
    pub(crate) fn count_written(&mut self) {
        bump(&mut self.written);
    }

    // One more play with this answer.
    pub(crate) fn count_play(&mut self, answer: u64) {
        match answer {
            play::NO_RULE => bump(&mut self.no_rule),
            play::TOO_LONG => bump(&mut self.too_long),
            _ => bump(&mut self.rounds),
        }
    }
}

// The answers and what a break came by, in words, by their numbers.
const ANSWERS: [&str; 4] = ["whole", "open", "broken", "refused"];

const CAUSES: [&str; 4] = ["nothing", "an own event", "a foreign event", "the clock"];

// What is due, and what of it was met.
#[derive(Clone, Copy, Default)]
pub struct Tally {
    pub dues: Counts,
    pub mets: Counts,
}

impl Tally {
    // A line for each kind: how many of those due agree.
    pub fn print(&self, rt: &impl Print) -> io::Result<()> {
        println!(rt; "cases: {} of {}", self.mets.cases, self.dues.cases)?;
        self.print_answers(rt)?;
        self.print_refusals(rt)?;
        self.print_causes(rt)?;
        println!(rt;
            "books written back: {} of {}",
            self.mets.written, self.dues.written
        )?;
        println!(rt;
            "rounds played: {} of {}",
            self.mets.rounds, self.dues.rounds
        )?;
        println!(rt;
            "refusal 17: {} of {}",
            self.mets.no_rule, self.dues.no_rule
        )?;
        println!(rt;
            "refusal 18: {} of {}",
            self.mets.too_long, self.dues.too_long
        )
    }

    fn print_answers(&self, rt: &impl Print) -> io::Result<()> {
        for i in 0..4 {
            println!(rt;
                "{}: {} of {}",
                ANSWERS[i], self.mets.answers[i], self.dues.answers[i]
            )?;
        }
        Ok(())
    }

    // In a log 13 can't arise, so it has no line.
    fn print_refusals(&self, rt: &impl Print) -> io::Result<()> {
        for i in 1..=14 {
            if i != 13 {
                println!(rt;
                    "refusal {i}: {} of {}",
                    self.mets.refusals[i], self.dues.refusals[i]
                )?;
            }
        }
        Ok(())
    }

    // Not of what did not break: that came by 0.
    fn print_causes(&self, rt: &impl Print) -> io::Result<()> {
        for i in 1..4 {
            println!(rt;
                "broken by {}: {} of {}",
                CAUSES[i], self.mets.causes[i], self.dues.causes[i]
            )?;
        }
        Ok(())
    }
}
