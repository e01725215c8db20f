// Reads the fields of a sheet, one after the other (document 01, "Where each refusal is found"). Each method of a reader answers what the definition of its field does: the value, and the
// reader stands after the field; or a refusal, with document 01's fault and the field's place, at which the reader then still stands.
#![tactic(auto)]

ghost use Rattle.std.specs.Prelude.{◌≡◌, ◌+◌, ◌<◌, ◌≤◌, ltb, length};
ghost use Rattle.layout.specs.Layout.{last_name};
ghost use Rattle.layout.specs.Terms.{today};
ghost use Rattle.layout.specs.Faults.{outside, most_fault, trigger_fault, name_fault};
ghost use Rattle.fields.specs.Faults.{number_of, number_or_0};
ghost use Rattle.fields.specs.Values.{Value, Within};
ghost use Rattle.layout.specs.Form.{number};

// Why a sheet is refused: document 01's refusals of a sheet, by their numbers.
#[derive(Clone, Copy, Debug, PartialEq, Eq)]
pub enum Fault {
    // a field doesn't fit in the bytes left
    DoesNotFit = 1,
    // the mark is other bytes
    NoMark = 2,
    // the version is none that is read
    UnknownVersion = 3,
    // a count, a kind or a join is outside its values
    OutsideItsValues = 4,
    // a field is not 0 where 0 is due
    NotZero = 5,
    // a name is above 63
    NoName = 6,
    // u is 0, or v is below u
    BoundTooLow = 7,
    // a name is already in the rule
    AlreadyInRule = 8,
    // the trigger is an output, or a name of Q is an input
    WrongDirection = 9,
    // bytes are left over after the last rule
    BytesLeftOver = 10,
}

impl Fault {
    // Document 01's number of the refusal.
    pub fn number(self) -> u8
        ensures { result ≡ number_of self }
    {
        self as u8
    }
}

// A refusal: the fault of the first faulty field, and that field's offset.
#[derive(Clone, Copy, Debug, PartialEq, Eq)]
pub struct Refused {
    pub fault: Fault,
    pub place: usize,
}

// ---- the faults of a field's value: the first that it has, if any

// A value from first to last, and the fault of any other.
fn outside(x: u64, first: u64, last: u64, fault: Fault) -> Option<Fault>
    ensures { number_or_0 result ≡ outside (number_of fault) first last x }
{
    if x < first || last < x {
        return Some(fault);
    }
    None
}

// A range's bound, which is at least so much, or 0 where that is let in: the range then has no upper end.
fn too_low(x: u64, least: u64, endless: bool) -> Option<Fault>
    ensures { number_or_0 result ≡ most_fault «endless» least x }
{
    if endless && x == 0 {
        return None;
    }
    if x < least {
        return Some(Fault::BoundTooLow);
    }
    None
}

// The faults of a name in the order of one field: above 63, of the wrong direction, already in the rule.
fn in_order(n: u64, again: bool, wrong_way: bool) -> Option<Fault>
    ensures { number_or_0 result ≡ today.in_order (ltb last_name n) «again» wrong_way }
{
    if LAST_NAME < n {
        return Some(Fault::NoName);
    }
    if wrong_way {
        return Some(Fault::WrongDirection);
    }
    if again {
        return Some(Fault::AlreadyInRule);
    }
    None
}

// A range's name: it may be in the rule already, and a name of Q may be an input.
fn name_fault(n: u64, outputs: u64, of_q: bool, used: u64) -> Option<Fault>
    requires { n < 256 }
    ensures { number_or_0 result ≡ name_fault today outputs of_q used n }
{
    let name = n as u8;
    let wrong_way = of_q && !names::is_output(outputs, name);
    in_order(n, names::has(used, name), wrong_way)
}

// The trigger of kinds 0 and 1: a name that is an input. It is the first name of its rule.
fn trigger_fault(i: u64, outputs: u64) -> Option<Fault>
    requires { i < 256 }
    ensures { number_or_0 result ≡ trigger_fault outputs i }
{
    in_order(i, false, names::is_output(outputs, i as u8))
}

// ---- what the fields go by

// The versions that are read are 1 to this one.
const NEWEST: u64 = 2;

// The most rules of a sheet.
const MOST_RULES: u64 = 16;

// The kinds of every version.
const FIRST_KIND: u64 = 0;

const LAST_KIND: u64 = 2;

// The first version in which a fragment may be shuffled, the last join of the versions before it, and the last one from it on.
const FIRST_SHUFFLED: u64 = 2;

const LAST_PLAIN_JOIN: u64 = 1;

const LAST_JOIN: u64 = 3;

// The first version in which a range may have no upper end.
const FIRST_ENDLESS: u64 = 2;

// The last name.
const LAST_NAME: u64 = 63;

// The most fragments of P and of Q, and the most ranges of a fragment.
pub const MOST_FRAGMENTS: u64 = 8;

pub const MOST_RANGES: u64 = 8;

// The last join that a version allows.
fn last_join(version: u64) -> u64
    ensures { result ≡ today.last_join version }
{
    if version < FIRST_SHUFFLED {
        return LAST_PLAIN_JOIN;
    }
    LAST_JOIN
}

// The version allows v = 0.
fn may_be_endless(version: u64) -> bool
    ensures { result ≡ today.endless version }
{
    FIRST_ENDLESS <= version
}

// The number of a field's bytes, little-endian.
fn number(field: &[u8]) -> u64
    requires { length field.now ≤ 8 }
    ensures { Value (length field.now) result (number field.now (length field.now) 0) }
{
    let mut bytes = [0u8; 8];
    bytes[..field.len()].copy_from_slice(field);
    u64::from_le_bytes(bytes)
}

// ---- the reader

// A sheet's bytes, and how far they are read.
#[derive(Drop)]
pub struct Reader<'a> {
    bytes: &'a [u8],
    at: usize,
    ghost within: { at ≤ length bytes.now },
}

impl<'a> Reader<'a> {
    ghost use Rattle.layout.specs.Layout.{last_kind, most_fragments};
    ghost use Rattle.layout.specs.Terms.{no_fault};
    ghost use Rattle.layout.specs.Faults.{due_zero, count_fault, least_fault, version_fault, rules_fault, kind_fault, join_fault, by_kind, unlike};
    ghost use Rattle.fields.specs.Told.{Told, a_field, Ended, Looked, Settled};

    // At the first of the bytes.
    pub fn new(bytes: &'a [u8]) -> Reader<'a>
        ensures { (result.bytes.now ≡ bytes.now) × (result.at ≡ 0) }
    {
        Reader { bytes, at: 0 }
    }

    // Bytes that are left over after the last field are refused, at the first of them.
    pub fn end(&self) -> Result<(), Refused>
        ensures { Ended self.now result }
    {
        if self.at < self.bytes.len() {
            return Err(Refused {
                fault: Fault::BytesLeftOver,
                place: self.at,
            });
        }
        Ok(())
    }

    // Looks at the next n bytes: their number, or that they don't fit in the bytes left.
    fn look(&self, n: usize) -> Result<u64, Refused>
        requires { n ≤ 8 }
        ensures { Looked n self.now result }
    {
        let end = self.at + n;
        if self.bytes.len() < end {
            return Err(Refused {
                fault: Fault::DoesNotFit,
                place: self.at,
            });
        }
        Ok(number(&self.bytes[self.at..end]))
    }

    // Goes on after the n bytes that were looked at, whose number is x, if that has no fault.
    fn settle(&mut self, n: usize, x: u64, fault: Option<Fault>) -> Result<u64, Refused>
        requires { self.old.at + n ≤ length self.old.bytes.now }
        ensures { Settled n x fault self.old self.new result }
    {
        if let Some(fault) = fault {
            return Err(Refused {
                fault,
                place: self.at,
            });
        }
        self.at += n;
        Ok(x)
    }

    // A field of n bytes, whatever its value.
    pub fn field(&mut self, n: usize) -> Result<u64, Refused>
        requires { n ≤ 8 }
        ensures { Told (Value n) self.old self.new result (a_field n no_fault) }
    {
        let x = self.look(n)?;
        self.settle(n, x, None)
    }

    // A field of n bytes with a value from first to last, or the fault of any other.
    fn between(&mut self, n: usize, first: u64, last: u64, fault: Fault) -> Result<u64, Refused>
        requires { n ≤ 8 }
        ensures { Told (Within first last) self.old self.new result (a_field n (outside (number_of fault) first last)) }
    {
        let x = self.look(n)?;
        self.settle(n, x, outside(x, first, last, fault))
    }

    // A field that must have one value: the mark, and where 0 is due.
    fn exactly(&mut self, n: usize, due: u64, fault: Fault) -> Result<u64, Refused>
        requires { n ≤ 8 }
        ensures { Told (Within due due) self.old self.new result (a_field n (unlike (number_of fault) due)) }
    {
        self.between(n, due, due, fault)
    }

    // The mark: three bytes that must have one value.
    pub fn mark(&mut self, due: u64) -> Result<u64, Refused>
        ensures { Told (Within due due) self.old self.new result (a_field 3 (unlike 2 due)) }
    {
        self.exactly(3, due, Fault::NoMark)
    }

    // A count, from 1 on.
    pub fn count(&mut self, most: u64) -> Result<u64, Refused>
        ensures { Told (Within 1 most) self.old self.new result (a_field 1 (count_fault most)) }
    {
        self.between(1, 1, most, Fault::OutsideItsValues)
    }

    // A range's bound, which is at least so much, or 0 where that is let in.
    fn bound(&mut self, least: u64, endless: bool) -> Result<u64, Refused>
        ensures { Told (Value 2) self.old self.new result (a_field 2 (most_fault «endless» least)) }
    {
        let x = self.look(2)?;
        self.settle(2, x, too_low(x, least, endless))
    }

    // ---- the fields that go by what was read before

    pub fn version(&mut self) -> Result<u64, Refused>
        ensures { Told (Within 1 today.newest) self.old self.new result (a_field 2 (version_fault today)) }
    {
        self.between(2, 1, NEWEST, Fault::UnknownVersion)
    }

    pub fn rule_count(&mut self) -> Result<u64, Refused>
        ensures { Told (Within 1 today.most_rules) self.old self.new result (a_field 1 (rules_fault today)) }
    {
        self.count(MOST_RULES)
    }

    // A rule's kind. It stays a number, as a join does: the rule's word stores it, and the definitions (`by_kind`, `kind_of`, `join_of`) go by it, so an enum would be turned back at once.
    pub fn kind(&mut self, version: u64) -> Result<u64, Refused>
        ensures { Told (Within (today.first_kind version) last_kind) self.old self.new result (a_field 1 (kind_fault today version)) }
    {
        self.between(1, FIRST_KIND, LAST_KIND, Fault::OutsideItsValues)
    }

    // The count of the fragments of Q.
    pub fn q_count(&mut self, kind: u64) -> Result<u64, Refused>
        ensures { Told (Within 0 most_fragments) self.old self.new result (a_field 1 (by_kind kind (count_fault most_fragments) due_zero)) }
    {
        if kind == 2 {
            return self.count(MOST_FRAGMENTS);
        }
        self.exactly(1, 0, Fault::NotZero)
    }

    // The trigger of kinds 0 and 1.
    fn trigger_name(&mut self, outputs: u64) -> Result<u64, Refused>
        ensures { Told (Within 0 last_name) self.old self.new result (a_field 1 (trigger_fault outputs)) }
    {
        let i = self.look(1)?;
        self.settle(1, i, trigger_fault(i, outputs))
    }

    pub fn trigger(&mut self, kind: u64, outputs: u64) -> Result<u64, Refused>
        ensures { Told (Within 0 last_name) self.old self.new result (a_field 1 (by_kind kind due_zero (trigger_fault outputs))) }
    {
        if kind == 2 {
            return self.exactly(1, 0, Fault::NotZero);
        }
        self.trigger_name(outputs)
    }

    pub fn time(&mut self, kind: u64) -> Result<u64, Refused>
        ensures { Told (Value 4) self.old self.new result (a_field 4 (by_kind kind no_fault due_zero)) }
    {
        if kind == 2 {
            return self.field(4);
        }
        self.exactly(4, 0, Fault::NotZero)
    }

    pub fn join(&mut self, version: u64) -> Result<u64, Refused>
        ensures { Told (Within 0 (today.last_join version)) self.old self.new result (a_field 1 (join_fault today version)) }
    {
        self.between(1, 0, last_join(version), Fault::OutsideItsValues)
    }

    pub fn name(&mut self, outputs: u64, of_q: bool, used: u64) -> Result<u64, Refused>
        ensures { Told (Within 0 last_name) self.old self.new result (a_field 1 (name_fault today outputs of_q used)) }
    {
        let n = self.look(1)?;
        self.settle(1, n, name_fault(n, outputs, of_q, used))
    }

    // A range's u, which is at least 1 in every version.
    pub fn least(&mut self) -> Result<u64, Refused>
        ensures { Told (Value 2) self.old self.new result (a_field 2 least_fault) }
    {
        self.bound(1, false)
    }

    // A range's v, which is at least u, or 0 where the version allows that.
    pub fn most(&mut self, version: u64, u: u64) -> Result<u64, Refused>
        ensures { Told (Value 2) self.old self.new result (a_field 2 (most_fault (today.endless version) u)) }
    {
        self.bound(u, may_be_endless(version))
    }
}
