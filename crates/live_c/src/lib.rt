// The live calls, for C: a static library over the library `live`. Each export calls the function there of the same name, whose clauses stand here again. `hosts/build` puts its object into
// target/libguard.a. The number in a call's name is that of the layout of what is lent: a host of another layout does not link.
#![tactic(auto)]

ghost use Rattle.std.specs.Prelude.{◌≡◌};
ghost use Rattle.layout.specs.Terms.{today};
ghost use Rattle.words.specs.Words.{held_by};
ghost use Rattle.answers.specs.declared.Observation.TheVariants.{Event, Clock};
ghost use Rattle.monitor.specs.Promise.{in_memory, Freshes};
ghost use Rattle.live.specs.Live.{library_version, Opens, Notes, verdict_is, Stores, PlaysInto};

use tables::Table;
use words::Memory;

// Reads a sheet into the table of its book and makes a fresh monitor; 0. Or the sheet's refusal and its place: then neither is changed.
#[unsafe(no_mangle)]
pub extern "C" fn guard4_open(sheet: &[u8], book: &mut Table, monitor: &mut Memory) -> u64
    ensures { Opens sheet.now (record { table = book.old; monitor = monitor.old }) result (record { table = book.new; monitor = monitor.new }) }
{
    live::guard4_open(sheet, book, monitor)
}

// Makes the monitor a fresh one, for whatever book.
#[unsafe(no_mangle)]
pub extern "C" fn guard4_start(monitor: &mut Memory)
    ensures { Freshes in_memory monitor.new }
{
    live::guard4_start(monitor);
}

// One event, under the book whose table is lent.
#[unsafe(no_mangle)]
pub extern "C" fn guard4_event(book: &Table, monitor: &mut Memory, name: u32, time: u32) -> u64
    ensures { Notes book.now monitor.old (Event name time) result monitor.new }
{
    live::guard4_event(book, monitor, name, time)
}

// One clock reading.
#[unsafe(no_mangle)]
pub extern "C" fn guard4_clock(book: &Table, monitor: &mut Memory, time: u32) -> u64
    ensures { Notes book.now monitor.old (Clock time) result monitor.new }
{
    live::guard4_clock(book, monitor, time)
}

// The verdict that the monitor holds.
#[unsafe(no_mangle)]
pub extern "C" fn guard4_verdict(monitor: &Memory) -> u64
    ensures { verdict_is result monitor.now }
{
    live::guard4_verdict(monitor)
}

// The number of observations that the monitor has taken.
#[unsafe(no_mangle)]
pub extern "C" fn guard4_taken(monitor: &Memory) -> u32
    ensures { result ≡ (held_by monitor.now).taken }
{
    live::guard4_taken(monitor)
}

// Writes the sheet of a book into the buffer: the number of bytes, or minus 16 in 64 bits and nothing is written.
#[unsafe(no_mangle)]
pub extern "C" fn guard4_write(book: &Table, buffer: &mut [u8]) -> u64
    ensures { Stores book.now buffer.old result buffer.new }
{
    live::guard4_write(book, buffer)
}

// Writes a round of a rule into the output, all at one time, as the choice bytes pick it: the number of records, or minus 17 or minus 18 in 64 bits and nothing is written.
#[unsafe(no_mangle)]
pub extern "C" fn guard4_play(
    book: &Table,
    rule: u32,
    time: u32,
    choice: &[u8],
    out: &mut [u8],
) -> u64
    ensures { PlaysInto book.now rule time choice.now out.old result out.new }
{
    live::guard4_play(book, rule, time, choice, out)
}

// This library's version, which a host compares with its header's.
#[unsafe(no_mangle)]
pub extern "C" fn guard_library_version() -> u32
    ensures { result ≡ library_version }
{
    live::guard_library_version()
}

// The newest version of a sheet that is read.
#[unsafe(no_mangle)]
pub extern "C" fn guard_sheet_version() -> u32
    ensures { result ≡ today.newest }
{
    live::guard_sheet_version()
}
