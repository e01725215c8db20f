// What a monitor keeps of one rule (document 01, "The recogniser of a range"; document 02, change 1): "its fragment number, eight recogniser states, .. and the end time of P", and
// "eight counts for a fragment where it kept one". It goes in and out of the step by value.
// The first state also says whether the rule is at rest: 1, nothing has come; 0, its trigger of kind 0 has released it.
#![tactic(auto)]

#[derive(Clone, Copy, Default)]
pub struct RuleState {
    pub fragment: u8,
    // The number of the range whose event came last: in a fragment that is not shuffled, the one that counts.
    pub current: u8,
    pub states: [u8; 8],
    pub counts: [u16; 8],
    // The ranges to which *next* would be an error, and those to which *own* would be one: bit i is range i's.
    pub lacking: u8,
    pub full: u8,
    pub end: u32,
}
