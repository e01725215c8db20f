// Reads a sheet (document 01, "The sheet" and "Where each refusal is found"): its header and its rules, and whether bytes are left over.
#![tactic(auto)]

ghost use Rattle.std.specs.Prelude.{◌≡◌};
ghost use Rattle.layout.specs.Reading.{sheet};
ghost use Rattle.fields.specs.Told.{Told, a_part};
ghost use Rattle.sheet.specs.Shown.{no_pages, SheetShown};
ghost use Rattle.sheet.specs.Answers.{Reads, ReadsInto};

use fields::{Reader, Refused};
use parts::{RuleTables, SheetHeader};

// The mark "LOB", 4C 4F 42, as one little-endian number.
const MARK: u64 = 0x424F4C;

// What a sheet says: its version, its outputs, how many rules it has, and the tables of all that they say.
#[derive(Drop)]
pub struct Pages {
    pub version: u16,
    pub outputs: u64,
    pub count: u8,
    pub tables: RuleTables,
}

impl Pages {
    // Before anything is read.
    pub fn new() -> Pages
        ensures { result ≡ no_pages }
    {
        Pages {
            version: 0,
            outputs: 0,
            count: 0,
            tables: RuleTables::new(),
        }
    }
}

// The sheet's header and its rules, into the pages.
fn sheet(r: &mut Reader, pages: &mut Pages) -> Result<(), Refused>
    ensures { Told (λ _. SheetShown pages.old pages.new) r.old r.new result (a_part sheet) }
{
    r.mark(MARK)?;
    let version = r.version()?;
    let outputs = r.field(8)?;
    let count = r.rule_count()?;
    pages.version = version as u16;
    pages.outputs = outputs;
    pages.count = count as u8;
    let header = SheetHeader { version, outputs };
    parts::rules(r, header, count as usize, &mut pages.tables)
}

// Reads a sheet from any bytes, into pages that are new: the refusal at the first faulty field, if any. It reads inside the slice only, and always returns.
// The contract says what is answered for all bytes, and so that no byte after the first fault has a say in the answer; that none is loaded is seen in the code, which returns there.
pub fn read_into(s: &[u8], pages: &mut Pages) -> Result<(), Refused>
    ensures { ReadsInto s.now pages.old pages.new result }
{
    let mut r = Reader::new(s);
    sheet(&mut r, pages)?;
    r.end()?;
    Ok(())
}

// The same, and the pages come with the answer. A book is made without this, since pages that are handed over by value are copied.
pub fn read(s: &[u8]) -> Result<Pages, Refused>
    ensures { Reads s.now result }
{
    let mut pages = Pages::new();
    read_into(s, &mut pages)?;
    Ok(pages)
}
