// Sets of names (document 01): "Sets of names are 64-bit words, one bit a name." "Membership, disjointness and output direction by shifts and masks on u64,
// proved against sets of numbers." Every word and every number is taken: one of 64 or more is no name, and is in no set.
#![tactic(auto)]

ghost use Rattle.std.specs.Prelude.{◌≡◌};
ghost use Rattle.names.specs.Names.{member, with_name, TellsDisjoint};

// Whether name n is in the set.
#[tactic(auto, unfolding(crate::specs::Names::member))]
pub fn has(set: u64, n: u8) -> bool
    ensures { result ≡ member set n }
{
    if 63 < n {
        return false;
    }
    (set >> n) & 1 == 1
}

// The set with name n; the same set if n is no name.
#[tactic(auto, unfolding(crate::specs::Names::insert))]
pub fn with(set: u64, n: u8) -> u64
    ensures { result ≡ with_name set n }
{
    if 63 < n {
        return set;
    }
    set | 1 << n
}

// Whether no name is in both sets.
pub fn disjoint(a: u64, b: u64) -> bool
    ensures { TellsDisjoint a b result }
{
    a & b == 0
}

// Whether name n is an output, by a sheet's word of outputs: "bit n is set if name n is an output of the plugin, clear if an input". That word is the set of
// the outputs, so this is the test for a member.
pub fn is_output(outputs: u64, n: u8) -> bool
    ensures { result ≡ member outputs n }
{
    has(outputs, n)
}
