// The cases of cases.bin and the plays of plays.bin for the program `vectors`: their bytes read from the file, the answer due held to the one given, and how many agree counted and printed: of all,
// by answer, by refusal, by what a break came by, of the books written back, and of the plays by their answer. reference/make.py says the files' formats.
#![tactic(auto)]

pub mod answer;
pub mod play;
pub mod read;
pub mod tally;

ghost use Rattle.std.specs.Prelude.{◌≡◌, ◌≤◌, length, IfSome, OnErr};
ghost use Rattle.layout.specs.Layout.{Sheet};
ghost use Rattle.layout.specs.Reading.{accepted, read_sheet};
ghost use Rattle.book.specs.Books.{book_of};

use answer::Answer;
use book::Book;
use fields::{Fault, Refused};
use read::{read_array, read_part, read_u32};
use std::io;
use std::io::Read;
use tally::Tally;

// A run over a log: its sheet, its log and its budget, and what is due: the answer, and what the break came by.
#[derive(Clone, Copy)]
pub struct Case<'a> {
    pub sheet: &'a [u8],
    pub log: &'a [u8],
    pub budget: u32,
    pub due: Answer,
    pub cause: u8,
}

impl<'a> Case<'a> {
    // The next case of the file; the buffers that are lent take its sheet and its log.
    pub fn read<R: Read>(file: &mut R, sheet: &'a mut [u8], log: &'a mut [u8]) -> Option<Case<'a>>
        ensures { IfSome result (λ c. (length c.sheet.now ≤ length sheet.old) × (length c.log.now ≤ length log.old)) }
    {
        let sheet = read_part(file, sheet)?;
        let log = read_part(file, log)?;
        let budget = read_u32(file)?;
        let due = Answer::from(read_array(file)?);
        let [cause]: [u8; 1] = read_array(file)?;
        Some(Case {
            sheet,
            log,
            budget,
            due,
            cause,
        })
    }

    // The case's sheet is accepted: what is due for it is no refusal of a sheet.
    fn is_accepted(&self) -> bool {
        self.due.answer != 3 || self.due.refusal > 10
    }
}

// The book that a case or a play is run with. A refused sheet has none: `book_of_refused` says what stands for it.
pub fn book_of(sheet: &[u8]) -> Book
    ensures { (S : Sheet) → read_sheet sheet.now ≡ accepted S → result ≡ book_of S }
{
    match book::translate(sheet) {
        Ok(book) => book,
        Err(refused) => book_of_refused(sheet, refused),
    }
}

// Bytes that are left over after the last rule are passed over, and of any other refused sheet no rule is kept.
fn book_of_refused(sheet: &[u8], refused: Refused) -> Book {
    if refused.fault == Fault::BytesLeftOver
        && let Some(rules) = sheet.get(..refused.place)
        && let Ok(book) = book::translate(rules)
    {
        return book;
    }
    Book {
        table: [0; tables::LENGTH],
    }
}

// Counts the case as due and, where it agrees, as met. A write that fails leaves it counted as due alone.
pub fn compare(
    rt: &impl Print,
    number: u32,
    out: &Answer,
    case: &Case,
    tally: &mut Tally,
) -> io::Result<()>
    ensures { OnErr result (tally.new.mets ≡ tally.old.mets) }
{
    let due = case.due;
    tally.dues.count(&due, case.cause);
    if *out == due {
        tally.mets.count(&due, case.cause);
    } else {
        println!(rt; "case {number}: {out}, due {due}")?;
    }
    Ok(())
}

// Counts the book of an accepted sheet as one to be written back and, where it was, as met.
pub fn count_written(written: bool, case: &Case, tally: &mut Tally) {
    if case.is_accepted() {
        tally.dues.count_written();
        if written {
            tally.mets.count_written();
        }
    }
}
