// The sheet writer (document 02, change 3): "a writer from a translated book to a lent buffer. For each accepted sheet, writing its book gives the sheet's own bytes and version".
// The book's table is by names, and a sheet is in file order: so the names are put by their places first. Then come two passes, the size and the bytes, each over the sheet's parts: "16, buffer
// shorter than the sheet, nothing written". Nothing is asked of the table.
#![tactic(auto)]

ghost use Rattle.std.specs.Prelude.{◌≡◌, ◌<◌, length};
ghost use Rattle.layout.specs.Layout.{le, range_bytes, mark};
ghost use Rattle.sheet_writer.specs.Parts.{version_field, outputs_field, join_field, least_field, most_field, range_in, fragment_part, fragments_in, fragment_count, rule_part, rule_count, header_part, table_bytes};
ghost use Rattle.sheet_writer.specs.Wrote.{HasRoom, Wrote};
ghost use Rattle.sheet_writer.specs.Writing.{Writes};

use places::NamedTable;
use tables::Table;

// ---- each field, as it is looked up: in the table, or in the cell of a name. A function each, so that it stands beside its definition of the same name in specs/Parts

fn version_field(table: &Table) -> u64
    ensures { result ≡ version_field table.now }
{
    table[tables::VERSION]
}

fn outputs_field(table: &Table) -> u64
    ensures { result ≡ outputs_field table.now }
{
    table[tables::OUTPUTS]
}

fn join_field(cell: u64) -> u64
    ensures { result ≡ join_field cell }
{
    tables::join_in(cell) as u64
}

fn least_field(cell: u64) -> u64
    ensures { result ≡ least_field cell }
{
    tables::least_in(cell) as u64
}

fn most_field(cell: u64) -> u64
    ensures { result ≡ most_field cell }
{
    tables::most_in(cell) as u64
}

// ---- what is at a place

fn rule_count(table: &Table) -> usize
    ensures { result ≡ rule_count table.now }
{
    for r in 0..16 {
        if table[tables::HEADS + r] == 0 {
            return r;
        }
    }
    16
}

// Fragments in P and Q,
fn fragments_in(head: u64) -> usize
    ensures { result ≡ fragments_in head }
{
    (tables::fragments_in_p(head) as usize) + (tables::fragments_in_q(head) as usize)
}

// of which at most 16 are looked at, whatever the head.
fn fragment_count(head: u64) -> usize
    ensures { result ≡ fragment_count head }
{
    tables::few(fragments_in(head))
}

// ---- the size

fn rule_size(places: &NamedTable, r: usize) -> usize
    requires { r < 16 }
    ensures { result ≡ length (rule_part places.now r) }
{
    let mut size = 8usize;
    for f in 0..fragment_count(places.table()[tables::HEADS + r]) {
        size += 7 + 5 * (tables::less_in(places.cell(r, f, 0)) as usize);
    }
    size
}

fn size(places: &NamedTable) -> usize
    ensures { result ≡ length (table_bytes places.now) }
{
    let mut size = 14usize;
    for r in 0..rule_count(places.table()) {
        size += rule_size(places, r);
    }
    size
}

// ---- the bytes

// The buffer, and where in it the next bytes go.
#[derive(Drop)]
struct Writer<'a> {
    pub buffer: &'a mut [u8],
    pub at: usize,
}

impl<'a> Writer<'a> {
    // A number's n bytes.
    fn put(&mut self, n: usize, x: u64)
        requires { HasRoom self.old (le n x) }
        ensures { Wrote self.old self.new (le n x) }
    {
        store::put(self.buffer, self.at, n, x);
        self.at += n;
    }

    fn put_range(&mut self, name: u8, cell: u64)
        requires { HasRoom self.old (range_bytes (range_in name cell)) }
        ensures { Wrote self.old self.new (range_bytes (range_in name cell)) }
    {
        self.put(1, name as u64);
        self.put(2, least_field(cell));
        self.put(2, most_field(cell));
    }

    // Fragment f of rule r.
    fn put_fragment(&mut self, places: &NamedTable, r: usize, f: usize)
        requires { (r < 16) × (f < 16) × HasRoom self.old (fragment_part places.now r f) }
        ensures { Wrote self.old self.new (fragment_part places.now r f) }
    {
        let first = places.cell(r, f, 0);
        let count = (tables::less_in(first) as usize) + 1;
        self.put(1, join_field(first));
        self.put(1, count as u64);
        for i in 0..count {
            self.put_range(places.name(r, f, i), places.cell(r, f, i));
        }
    }

    // Rule r: its head, and its fragments.
    fn put_rule(&mut self, places: &NamedTable, r: usize)
        requires { (r < 16) × HasRoom self.old (rule_part places.now r) }
        ensures { Wrote self.old self.new (rule_part places.now r) }
    {
        let head = places.table()[tables::HEADS + r];
        self.put(8, head);
        for f in 0..fragment_count(head) {
            self.put_fragment(places, r, f);
        }
    }

    // "the mark 4C 4F 42"
    fn put_mark(&mut self)
        requires { HasRoom self.old (le 3 mark) }
        ensures { Wrote self.old self.new (le 3 mark) }
    {
        self.put(3, 0x42_4F_4C);
    }

    fn put_header(&mut self, table: &Table)
        requires { HasRoom self.old (header_part table.now) }
        ensures { Wrote self.old self.new (header_part table.now) }
    {
        self.put_mark();
        self.put(2, version_field(table));
        self.put(8, outputs_field(table));
        self.put(1, rule_count(table) as u64);
    }

    fn put_sheet(&mut self, places: &NamedTable)
        requires { HasRoom self.old (table_bytes places.now) }
        ensures { Wrote self.old self.new (table_bytes places.now) }
    {
        let table = places.table();
        self.put_header(table);
        for r in 0..rule_count(table) {
            self.put_rule(places, r);
        }
    }
}

// ---- the call

// 16, "buffer shorter than the sheet"
#[derive(Clone, Copy, PartialEq, Eq, Debug)]
pub struct TooShort;

// Writes the sheet of a book into the buffer. "The answer is the number of bytes written. Bytes of the buffer past the sheet don't change." "Turned away: 16, buffer shorter than the sheet,
// nothing written." Of a table that no sheet gives, what is written is free; it is inside the buffer.
pub fn write(table: &Table, buffer: &mut [u8]) -> Result<usize, TooShort>
    ensures { Writes table.now buffer.old result buffer.new }
{
    let mut names = [0; 2048];
    let places = NamedTable::new(table, &mut names);
    let bytes = size(&places);
    if buffer.len() < bytes {
        return Err(TooShort);
    }
    let mut writer = Writer { buffer, at: 0 };
    writer.put_sheet(&places);
    Ok(bytes)
}
