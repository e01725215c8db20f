// What time adds to a rule (document 01): "The table knows no time; the deadline is added to it." By what a cell says of its fragment: when P ended, and whether an event, or a rule whose
// deadline runs, is after the deadline. Sums are computed in u64, and never wrap.
#![tactic(auto)]

ghost use Rattle.std.specs.Prelude.{◌≡◌};
ghost use Rattle.deadline.specs.Deadlines.{overdue_of, late_of, end_of};

// A rule whose deadline runs is broken by the clock: the time is after the deadline.
pub fn overdue(limit: u32, end: u32, time: u32) -> bool
    ensures { result ≡ overdue_of limit end time }
{
    u64::from(end) + u64::from(limit) < u64::from(time)
}

// An event on the cell's name is one of Q after the deadline.
#[tactic(auto, unfolding(crate::specs::Deadlines::late_of))]
pub fn late(cell: u64, limit: u32, end: u32, time: u32) -> bool
    ensures { result ≡ late_of cell limit end time }
{
    tables::in_q(cell) && overdue(limit, end, time)
}

// The end of P after an event on the cell's name.
#[tactic(auto, unfolding(crate::specs::Deadlines::end_of))]
pub fn ended(cell: u64, end: u32, time: u32) -> u32
    ensures { result ≡ end_of cell end time }
{
    if tables::in_p(cell) { time } else { end }
}
