// Bytes into a slice that is lent: a number's bytes from an offset on. What a run of such calls leaves is one splice, by the kit's law `sets-eq`.
#![tactic(auto)]

ghost use Rattle.std.specs.Prelude.{◌≡◌, ◌+◌, ◌≤◌, length};
ghost use Rattle.std.proofs.lemmas.List.Edits.{sets};
ghost use Rattle.layout.specs.Layout.{le};

// A number's n bytes from an offset on, little-endian. Nothing else changes. `to_le_bytes` would give eight, and n is any number.
pub fn put(out: &mut [u8], at: usize, n: usize, x: u64)
    requires { at + n ≤ length out.old }
    ensures { out.new ≡ sets out.old at (le n x) }
{
    let mut rest = x;
    for i in 0..n {
        out[at + i] = (rest % 256) as u8;
        rest = rest / 256;
    }
}
