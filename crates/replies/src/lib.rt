// An answer as one number, for hosts that are not written in Rattle (document 01: "answer (0 whole, 1 open, 2 broken, 3 refused); refusal number or 0; mask (u16); .. place (u32)"): an enum does
// not cross to C. The lowest eight bits are the answer, then come refusal, mask and place.
#![tactic(auto)]

ghost use Rattle.std.specs.Prelude.{◌≡◌};
ghost use Rattle.pattern.specs.Values.{verdict_values, refused_values};
ghost use Rattle.answers.specs.Cases.{said, values_of};
ghost use Rattle.replies.specs.Replies.{word_of};

use answers::{Answer, Verdict};

pub fn refused_word(number: u8, place: u32) -> u64
    ensures { result ≡ word_of (refused_values number place) }
{
    3 + 256 * u64::from(number) + 4294967296 * u64::from(place)
}

pub fn verdict_word(v: Verdict) -> u64
    ensures { result ≡ word_of (verdict_values (said v)) }
{
    match v {
        Verdict::Whole => 0,
        Verdict::Open(mask) => 1 + 65536 * u64::from(mask),
        Verdict::Broken(k, mask) => 2 + 65536 * u64::from(mask) + 4294967296 * u64::from(k),
    }
}

pub fn answer_word(a: Answer) -> u64
    ensures { result ≡ word_of (values_of a) }
{
    match a {
        Ok(verdict) => verdict_word(verdict),
        Err(why) => refused_word(why.number(), 0),
    }
}
