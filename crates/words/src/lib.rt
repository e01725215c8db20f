// The memory of a monitor: bytes, which a caller lends and which are changed in place. For each rule "its fragment number, eight recogniser states, .. and the end time of P", with "eight
// counts for a fragment where it kept one" and beside them the range that came last and the two masks; then the number taken, the latest time, the verdict and its masks. A rule's state goes
// in and out by value. All bytes are taken, and a rule's number is reduced by a remainder, so that nothing is asked of either.
#![tactic(auto)]

ghost use Rattle.std.specs.Prelude.{◌≡◌, ◌+◌, ◌%◌, ◌≤◌, get_or, take, drop};
ghost use Rattle.std.proofs.lemmas.List.Edits.{sets};
ghost use Rattle.layout.specs.Form.{number};
ghost use Rattle.layout.specs.Layout.{le, each};
ghost use Rattle.words.specs.Words.{numbers_from, no_state, Held, held_by, Holds, Clean, Stores};

use rule_state::RuleState;

// ---- the layout

// Each rule's 32 bytes, rule r's from RULE r on: the fragment, the range that came last, the two masks, a byte each; the end time of P, four bytes;
const RULE: usize = 32;

const CURRENT: usize = 1;

const LACKING: usize = 2;

const FULL: usize = 3;

const END: usize = 4;

// the eight states, a byte each; and the eight counts, two bytes each.
const STATES: usize = 8;

const COUNTS: usize = 16;

// Then the number taken, the latest time, the verdict, its mask and the dues. The bytes after the verdict and after the dues hold nothing.
const TAKEN: usize = 16 * RULE;

const LATEST: usize = TAKEN + 4;

const VERDICT: usize = TAKEN + 8;

const MASK: usize = TAKEN + 10;

const DUES: usize = TAKEN + 12;

pub const LENGTH: usize = TAKEN + 16;

pub type Memory = [u8; LENGTH];

// ---- bytes, and numbers in them, little-endian. That they lie within the memory is asked at each function, since each takes another number of bytes

// The N bytes from an offset on.
fn bytes_at<const N: usize>(m: &Memory, at: usize) -> [u8; N]
    requires { at + N ≤ 528 }
    ensures { result ≡ take N (drop at m.now) }
{
    *m[at..at + N].first_chunk().unwrap()
}

// Bytes to an offset.
fn put<const N: usize>(m: &mut Memory, at: usize, bytes: [u8; N])
    requires { at + N ≤ 528 }
    ensures { m.new ≡ sets m.old at bytes.entry }
{
    m[at..at + N].copy_from_slice(&bytes);
}

// The number of the two bytes from an offset on.
fn get16(m: &Memory, at: usize) -> u16
    requires { at + 2 ≤ 528 }
    ensures { result ≡ number m.now 2 at }
{
    u16::from_le_bytes(bytes_at(m, at))
}

// The number of the four bytes from an offset on.
fn get32(m: &Memory, at: usize) -> u32
    requires { at + 4 ≤ 528 }
    ensures { result ≡ number m.now 4 at }
{
    u32::from_le_bytes(bytes_at(m, at))
}

// ---- a rule's eight counts, two bytes each: spelled out, since no loop goes over the ranges at an event

// Eight numbers from an offset on.
fn counts_at(m: &Memory, at: usize) -> [u16; 8]
    requires { at + 16 ≤ 528 }
    ensures { result ≡ numbers_from m.now 2 8 at }
{
    [
        get16(m, at),
        get16(m, at + 2),
        get16(m, at + 4),
        get16(m, at + 6),
        get16(m, at + 8),
        get16(m, at + 10),
        get16(m, at + 12),
        get16(m, at + 14),
    ]
}

// Eight numbers to an offset.
fn put_counts(m: &mut Memory, at: usize, x: [u16; 8])
    requires { at + 16 ≤ 528 }
    ensures { m.new ≡ sets m.old at (each (le 2) x) }
{
    put(m, at, x[0].to_le_bytes());
    put(m, at + 2, x[1].to_le_bytes());
    put(m, at + 4, x[2].to_le_bytes());
    put(m, at + 6, x[3].to_le_bytes());
    put(m, at + 8, x[4].to_le_bytes());
    put(m, at + 10, x[5].to_le_bytes());
    put(m, at + 12, x[6].to_le_bytes());
    put(m, at + 14, x[7].to_le_bytes());
}

// ---- a rule's 32 bytes

// The state of rule r.
pub fn load(m: &Memory, r: usize) -> RuleState
    ensures { result ≡ get_or (held_by m.now).rules (r % 16) no_state }
{
    let k = RULE * (r % 16);
    RuleState {
        fragment: m[k],
        current: m[k + CURRENT],
        states: bytes_at(m, k + STATES),
        counts: counts_at(m, k + COUNTS),
        lacking: m[k + LACKING],
        full: m[k + FULL],
        end: get32(m, k + END),
    }
}

// The end time of P of rule r.
pub fn end_of(m: &Memory, r: usize) -> u32
    ensures { result ≡ (get_or (held_by m.now).rules (r % 16) no_state).end }
{
    get32(m, RULE * (r % 16) + END)
}

// Rule r gets a state.
pub fn store(m: &mut Memory, r: usize, st: RuleState)
    ensures { Stores m.old (r % 16) st m.new }
{
    let k = RULE * (r % 16);
    m[k] = st.fragment;
    m[k + CURRENT] = st.current;
    m[k + LACKING] = st.lacking;
    m[k + FULL] = st.full;
    put(m, k + END, st.end.to_le_bytes());
    put(m, k + STATES, st.states);
    put_counts(m, k + COUNTS, st.counts);
}

// ---- the monitor's own 16 bytes

// The number taken.
pub fn taken(m: &Memory) -> u32
    ensures { result ≡ (held_by m.now).taken }
{
    get32(m, TAKEN)
}

// The latest time.
pub fn latest(m: &Memory) -> u32
    ensures { result ≡ (held_by m.now).latest }
{
    get32(m, LATEST)
}

// The verdict: 0 whole, 1 open, 2 broken; other numbers are in no monitor that these calls make.
pub fn verdict(m: &Memory) -> u8
    ensures { result ≡ (held_by m.now).verdict }
{
    m[VERDICT]
}

// The mask of the open rules, or of those that broke.
pub fn mask(m: &Memory) -> u16
    ensures { result ≡ (held_by m.now).mask }
{
    get16(m, MASK)
}

// The mask of the rules whose deadline runs.
pub fn dues(m: &Memory) -> u16
    ensures { result ≡ (held_by m.now).dues }
{
    get16(m, DUES)
}

// All but the rules' states. Five numbers, and no struct: those who call it have them apart, and nobody passes them on together.
pub fn settle(m: &mut Memory, taken: u32, latest: u32, verdict: u8, mask: u16, dues: u16)
    ensures { (k : Held) → Holds m.old k → Clean m.new (record { rules = k.rules; taken = taken; latest = latest; verdict = verdict; mask = mask; dues = dues }) }
{
    put(m, TAKEN, taken.to_le_bytes());
    put(m, LATEST, latest.to_le_bytes());
    put(m, VERDICT, [verdict, 0]);
    put(m, MASK, mask.to_le_bytes());
    put(m, DUES, dues.to_le_bytes());
    put(m, DUES + 2, [0; 2]);
}
