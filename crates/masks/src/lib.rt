// Sets of rules (document 01): "a 16-bit mask of the rules". Rule r is in a mask if bit r is set. Every mask and every number is taken: one of 16 or more is no rule,
// and is in no mask. And sets of a fragment's ranges: "1 to 8 ranges", so a set has 8 bits, and range i is in it if bit i is set; of a range's number the lowest three bits count.
// The sets of a range's states that `recogniser` makes have this form too.
#![tactic(auto)]

ghost use Rattle.std.specs.Prelude.{◌≡◌, ◌%◌};
ghost use Rattle.names.specs.Names.{member};
ghost use Rattle.std.specs.Iterator.{at_most};
ghost use Rattle.masks.specs.Masks.{Union, Without, Lowest, Rest, Turn, Put};

// The rules of either mask.
pub fn union(a: u16, b: u16) -> u16
    ensures { Union a b result }
{
    a | b
}

// The rules of a that are not in b.
pub fn without(a: u16, b: u16) -> u16
    ensures { Without a b result }
{
    a & !b
}

// The lowest rule of a mask that is not empty.
pub fn lowest(mask: u16) -> usize
    ensures { Lowest mask result }
{
    (mask.trailing_zeros() % 16) as usize
}

// The mask without its lowest rule: a smaller number, if it has any.
pub fn rest(mask: u16) -> u16
    ensures { Rest mask result }
{
    if mask == 0 {
        return 0;
    }
    mask & (mask - 1)
}

// The rules of a mask, from the lowest up. What it holds is the mask of those that are still to come.
#[derive(Drop)]
pub struct Rules(u16);

pub fn each(mask: u16) -> Rules
    ensures { result.0 ≡ mask }
{
    Rules(mask)
}

// A mask is a greater number than what is left of it, so that no more rules come than it says.
impl Iterator for Rules {
    type Item = usize;

    ghost next_gives = { λ old r new. Turn old.0 r new.0 };

    ghost remaining = { λ s. at_most s.0 };

    fn next(&mut self) -> Option<usize> {
        let mask = self.0;
        if mask == 0 {
            return None;
        }
        self.0 = rest(mask);
        Some(lowest(mask))
    }
}

// The set of ranges in which range i is or is not, as `on` says, and every other is as it was.
pub fn put(set: u8, i: u8, on: bool) -> u8
    ensures { Put set (i % 8) on result }
{
    (set & !(1u8 << (i % 8))) | (u8::from(on) << (i % 8))
}

// Range i is in the set of ranges.
#[tactic(auto, unfolding(names::specs::Names::member))]
pub fn holds(set: u8, i: u8) -> bool
    ensures { result ≡ member set (i % 8) }
{
    (set >> (i % 8)) % 2 == 1
}
