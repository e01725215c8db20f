// A monitor's memory before any observation. It does not depend on the book.
#![tactic(auto)]

ghost use Rattle.words.specs.Words.{Clean};
ghost use Rattle.std.specs.Prelude.{◌≡◌};
ghost use Rattle.opening.specs.Fresh.{fresh_state, fresh_held};

use rule_state::RuleState;
use words::Memory;

// A rule to which nothing has come.
fn fresh() -> RuleState
    ensures { result ≡ fresh_state }
{
    RuleState {
        states: [1, 0, 0, 0, 0, 0, 0, 0],
        ..RuleState::default()
    }
}

// A monitor that has taken nothing: to no rule has anything come.
pub fn unstarted() -> Memory
    ensures { Clean result fresh_held }
{
    let mut m = [0; words::LENGTH];
    for r in 0..16 {
        words::store(&mut m, r, fresh());
    }
    m
}
