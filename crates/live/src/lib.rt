// A live session for C hosts (document 01, "Observing"): "The host's session keeps one monitor, lent to the guard and changed in place". The host lends the book's table, which opening
// writes and nothing else changes, and the monitor's memory. An answer is one number (crate `replies`). The number in a call's name is that of the layout of what is lent: a host of
// another layout does not link.
#![tactic(auto)]

ghost use Rattle.std.specs.Prelude.{◌≡◌, ◌<◌};
ghost use Rattle.layout.specs.Terms.{today};
ghost use Rattle.words.specs.Words.{held_by};
ghost use Rattle.answers.specs.declared.Observation.TheVariants.{Event, Clock};
ghost use Rattle.monitor.specs.Promise.{in_memory, Freshes};
ghost use Rattle.sheet_writer.specs.Writing as writing;
ghost use Rattle.rule_player.specs.Playing as playing;
ghost use Rattle.live.specs.Live.{library_version, Opens, Notes, verdict_is, below_0, number_of, Stores, PlaysInto};

use rule_player::Refusal;
use sheet_writer::TooShort;
use tables::Table;
use words::Memory;

// Reads a sheet into the table of its book and makes a fresh monitor; 0. Or the sheet's refusal and its place: then neither is changed.
#[unsafe(no_mangle)]
pub extern "C" fn guard4_open(sheet: &[u8], book: &mut Table, monitor: &mut Memory) -> u64
    ensures { Opens sheet.now (record { table = book.old; monitor = monitor.old }) result (record { table = book.new; monitor = monitor.new }) }
{
    match book::translate(sheet) {
        Ok(opened) => {
            let table = opened.table;
            let first = monitor::fresh();
            *book = table;
            *monitor = first;
            0
        }
        Err(refused) => replies::refused_word(refused.fault.number(), refused.place as u32),
    }
}

// Makes the monitor a fresh one, for whatever book.
#[unsafe(no_mangle)]
pub extern "C" fn guard4_start(monitor: &mut Memory)
    ensures { Freshes in_memory monitor.new }
{
    let first = monitor::fresh();
    *monitor = first;
}

// One event, under the book whose table is lent. A name of 64 or more, of whatever width, is one that the judge refuses.
#[unsafe(no_mangle)]
pub extern "C" fn guard4_event(book: &Table, monitor: &mut Memory, name: u32, time: u32) -> u64
    ensures { Notes book.now monitor.old (Event name time) result monitor.new }
{
    replies::answer_word(monitor::note(book, monitor, name, time))
}

// One clock reading.
#[unsafe(no_mangle)]
pub extern "C" fn guard4_clock(book: &Table, monitor: &mut Memory, time: u32) -> u64
    ensures { Notes book.now monitor.old (Clock time) result monitor.new }
{
    replies::answer_word(monitor::tick(book, monitor, time))
}

// The verdict that the monitor holds.
#[unsafe(no_mangle)]
pub extern "C" fn guard4_verdict(monitor: &Memory) -> u64
    ensures { verdict_is result monitor.now }
{
    replies::verdict_word(monitor::verdict(monitor))
}

// The number of observations that the monitor has taken.
#[unsafe(no_mangle)]
pub extern "C" fn guard4_taken(monitor: &Memory) -> u32
    ensures { result ≡ (held_by monitor.now).taken }
{
    monitor::count(monitor)
}

// ---- writing

// A refusal as its number below 0, in 64 bits.
fn below_0(number: u8) -> u64
    requires { 0 < number }
    ensures { result ≡ below_0 number }
{
    u64::MAX - u64::from(number) + 1
}

// The answer of the writer as one number.
fn written_word(answer: Result<usize, TooShort>) -> u64
    ensures { result ≡ number_of (writing.answer_of answer) }
{
    match answer {
        Ok(bytes) => bytes as u64,
        Err(TooShort) => below_0(16),
    }
}

// Writes the sheet of a book into the buffer: the number of bytes, or minus 16 in 64 bits and nothing is written.
#[unsafe(no_mangle)]
pub extern "C" fn guard4_write(book: &Table, buffer: &mut [u8]) -> u64
    ensures { Stores book.now buffer.old result buffer.new }
{
    written_word(sheet_writer::write(book, buffer))
}

// ---- playing

// The answer of the player as one number. A function of its own beside the writer's, since their refusals are two types: a trait for three numbers would be no plainer.
fn played_word(answer: Result<usize, Refusal>) -> u64
    ensures { result ≡ number_of (playing.answer_of answer) }
{
    match answer {
        Ok(records) => records as u64,
        Err(Refusal::NoRule) => below_0(17),
        Err(Refusal::TooLong) => below_0(18),
    }
}

// Writes a round of a rule into the output, all at one time, as the choice bytes pick it: the number of records, or minus 17 or minus 18 in 64 bits and nothing is written.
#[unsafe(no_mangle)]
pub extern "C" fn guard4_play(
    book: &Table,
    rule: u32,
    time: u32,
    choice: &[u8],
    out: &mut [u8],
) -> u64
    ensures { PlaysInto book.now rule time choice.now out.old result out.new }
{
    played_word(rule_player::play(book, rule, time, choice, out))
}

// ---- versions

const LIBRARY: u32 = 8;

const NEWEST_SHEET: u32 = 2;

// This library's version, which a host compares with its header's.
#[unsafe(no_mangle)]
pub extern "C" fn guard_library_version() -> u32
    ensures { result ≡ library_version }
{
    LIBRARY
}

// The newest version of a sheet that is read.
#[unsafe(no_mangle)]
pub extern "C" fn guard_sheet_version() -> u32
    ensures { result ≡ today.newest }
{
    NEWEST_SHEET
}
