// Reads the parts of a sheet (document 01, "The sheet"): ranges, fragments and rules, into the tables of its pages. Each function answers what the definition of that name does.
// What `rules` asks, its one caller in `sheet` is proved to give.
#![tactic(auto)]

ghost use Rattle.std.specs.Prelude.{◌≡◌, ◌+◌, ◌*◌, ◌^◌, ◌<◌, ◌≤◌};
ghost use Rattle.names.specs.Names.{insert};
ghost use Rattle.layout.specs.Faults.{by_kind};
ghost use Rattle.layout.specs.Reading.{range, ranges, fragment, fragments, header, rule, rules};
ghost use Rattle.layout.specs.Pages.{trigger_fragments};
ghost use Rattle.fields.specs.Told.{Told, a_part};
ghost use Rattle.parts.specs.Shown.{no_rules, RangeShown, RangesShown, FragmentShown, FragmentsShown, Stored, HeaderShown, RuleShown, RulesShown};

use fields::{Reader, Refused};

// All that a sheet's rules say, in file order (layout/specs/Pages): heads has each rule's eight bytes, fragments each fragment's join and count, ranges each range's name, u and v.
#[derive(Drop)]
pub struct RuleTables {
    pub heads: [u64; 16],
    pub fragments: [u16; 256],
    pub ranges: [u64; 2048],
}

impl RuleTables {
    // Those of no rules.
    pub fn new() -> RuleTables
        ensures { result ≡ no_rules }
    {
        RuleTables {
            heads: [0; 16],
            fragments: [0; 256],
            ranges: [0; 2048],
        }
    }
}

// What the sheet's header says that its rules are read by.
#[derive(Clone, Copy)]
pub struct SheetHeader {
    pub version: u64,
    pub outputs: u64,
}

// A range as one number.
fn range_word(n: u64, u: u64, v: u64) -> u64
    requires { (n ≤ 63) × (u < 65536) × (v < 65536) }
    ensures { result ≡ n + 256 * (u + 65536 * v) }
{
    n + 256 * (u + 65536 * v)
}

// A range, into the table at k: the names so far with its own.
fn range(
    r: &mut Reader,
    sheet: SheetHeader,
    of_q: bool,
    before: u64,
    table: &mut [u64; 2048],
    k: usize,
) -> Result<u64, Refused>
    requires { k < 2048 }
    ensures { Told (RangeShown before k table.old table.new) r.old r.new result (a_part (range sheet.version sheet.outputs of_q before)) }
{
    let n = r.name(sheet.outputs, of_q, before)?;
    let u = r.least()?;
    let v = r.most(sheet.version, u)?;
    table[k] = range_word(n, u, v);
    Ok(names::with(before, n as u8))
}

// The ranges of a fragment, into the table from an index on.
fn ranges(
    r: &mut Reader,
    sheet: SheetHeader,
    of_q: bool,
    before: u64,
    count: usize,
    table: &mut [u64; 2048],
    base: usize,
) -> Result<u64, Refused>
    requires { base + count ≤ 2048 }
    ensures { Told (RangesShown before base table.old table.new) r.old r.new result (a_part (ranges sheet.version sheet.outputs of_q before count)) }
{
    let mut used = before;
    for i in 0..count {
        used = range(r, sheet, of_q, used, table, base + i)?;
    }
    Ok(used)
}

// A fragment's join and count of ranges as one number.
fn fragment_word(join: u64, count: u64) -> u16
    requires { (join ≤ 3) × (count ≤ 8) }
    ensures { result ≡ join + 256 * count }
{
    (join + 256 * count) as u16
}

// A fragment, of number k.
fn fragment(
    r: &mut Reader,
    sheet: SheetHeader,
    of_q: bool,
    before: u64,
    tables: &mut RuleTables,
    k: usize,
) -> Result<u64, Refused>
    requires { k < 256 }
    ensures { Told (FragmentShown before k tables.old tables.new) r.old r.new result (a_part (fragment sheet.version sheet.outputs of_q before)) }
{
    let join = r.join(sheet.version)?;
    let count = r.count(fields::MOST_RANGES)?;
    tables.fragments[k] = fragment_word(join, count);
    ranges(
        r,
        sheet,
        of_q,
        before,
        count as usize,
        &mut tables.ranges,
        8 * k,
    )
}

// Fragments, numbered from first on.
fn fragments(
    r: &mut Reader,
    sheet: SheetHeader,
    of_q: bool,
    before: u64,
    count: usize,
    tables: &mut RuleTables,
    first: usize,
) -> Result<u64, Refused>
    requires { first + count ≤ 256 }
    ensures { Told (FragmentsShown before first tables.old tables.new) r.old r.new result (a_part (fragments sheet.version sheet.outputs of_q before count)) }
{
    let mut used = before;
    for i in 0..count {
        used = fragment(r, sheet, of_q, used, tables, first + i)?;
    }
    Ok(used)
}

// The rule's names before its first fragment.
fn trigger_set(kind: u64, i: u64) -> u64
    requires { i ≤ 63 }
    ensures { result ≡ by_kind kind 0 (insert 0 i) }
{
    if kind == 2 {
        return 0;
    }
    names::with(0, i as u8)
}

// A rule's eight bytes as one number.
fn header_word(k: u64, p: u64, q: u64, i: u64, t: u64) -> u64
    requires { (k ≤ 2) × (p ≤ 8) × (q ≤ 8) × (i ≤ 63) × (t < 256 ^ 4) }
    ensures { result ≡ k + 256 * (p + 256 * (q + 256 * (i + 256 * t))) }
{
    k + 256 * (p + 256 * (q + 256 * (i + 256 * t)))
}

// A rule's eight bytes: each field that is needed, the names so far, and the bytes as one number.
#[derive(Drop)]
struct Heading {
    kind: u64,
    p: u64,
    q: u64,
    trigger: u64,
    used: u64,
    word: u64,
}

fn header(r: &mut Reader, sheet: SheetHeader) -> Result<Heading, Refused>
    ensures { Told (HeaderShown sheet.outputs) r.old r.new result (a_part (header sheet.version sheet.outputs)) }
{
    let kind = r.kind(sheet.version)?;
    let p = r.count(fields::MOST_FRAGMENTS)?;
    let q = r.q_count(kind)?;
    let trigger = r.trigger(kind, sheet.outputs)?;
    let time = r.time(kind)?;
    Ok(Heading {
        kind,
        p,
        q,
        trigger,
        used: trigger_set(kind, trigger),
        word: header_word(kind, p, q, trigger, time),
    })
}

// The trigger's fragment, of number k, where there is a trigger: joined all, one range [1,1].
fn trigger_fragment(kind: u64, i: u64, tables: &mut RuleTables, k: usize)
    requires { (i ≤ 63) × (k < 256) }
    ensures { Stored k tables.old tables.new (trigger_fragments kind i) }
{
    if kind == 2 {
        return;
    }
    tables.fragments[k] = fragment_word(0, 1);
    tables.ranges[8 * k] = range_word(i, 1, 1);
}

// A rule, of number k.
fn rule(
    r: &mut Reader,
    sheet: SheetHeader,
    tables: &mut RuleTables,
    k: usize,
) -> Result<(), Refused>
    requires { k < 16 }
    ensures { Told (λ _. RuleShown k tables.old tables.new) r.old r.new result (a_part (rule sheet.version sheet.outputs)) }
{
    let h = header(r, sheet)?;
    tables.heads[k] = h.word;
    let first = 16 * k;
    let last = first + h.p as usize;
    let used = fragments(r, sheet, false, h.used, h.p as usize, tables, first)?;
    trigger_fragment(h.kind, h.trigger, tables, last);
    fragments(r, sheet, true, used, h.q as usize, tables, last)?;
    Ok(())
}

// The rules.
pub fn rules(
    r: &mut Reader,
    sheet: SheetHeader,
    count: usize,
    tables: &mut RuleTables,
) -> Result<(), Refused>
    requires { count ≤ 16 }
    ensures { Told (λ _. RulesShown tables.old tables.new) r.old r.new result (a_part (rules sheet.version sheet.outputs count)) }
{
    for k in 0..count {
        rule(r, sheet, tables, k)?;
    }
    Ok(())
}
