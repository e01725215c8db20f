// The program (document 01, "Running a log"): "reads files book.lob and trace.lot and prints these five numbers with single spaces and a newline, budget 4,294,967,295".
#![tactic(auto)]

ghost use Rattle.std.specs.Prelude.{◌≤◌, length};
ghost use Rattle.guard.specs.Prints.{Prints};

use runner::Outcome;
use std::fs::File;
use std::io;
use std::rt::Files;

// The five numbers. "a book.lob beyond 5,774 bytes or a trace.lot beyond 65,535 is printed as `3 0 0 0 0`", before anything else is looked at.
fn numbers(sheet: &[u8], log: &[u8]) -> Outcome
    ensures { Prints sheet.now log.now result }
{
    if 5774 < sheet.len() || 65535 < log.len() {
        return runner::turned_away(0, 0);
    }
    host::outcome(sheet, log, u32::MAX)
}

// A file's bytes, as far as the buffer goes: "a file that can't be opened reads as empty".
fn load<'a>(rt: &impl Files, path: &str, buf: &'a mut [u8]) -> &'a [u8]
    ensures { length result.now ≤ length buf.old }
{
    match File::open(rt, path) {
        Ok(mut file) => input::read_slice(&mut file, buf),
        Err(_) => &[],
    }
}

// One byte more than each limit is read, to see a file that goes beyond it. What the line says is proved, and that it is written is std's part.
fn main(rt: HostRuntime) -> io::Result<()> {
    let mut book = [0u8; 5775];
    let mut trace = [0u8; 65536];
    let sheet = load(&rt, "book.lob", &mut book);
    let log = load(&rt, "trace.lot", &mut trace);
    let line = log_line::line_of(numbers(sheet, log));
    rt.write_all(line.as_slice())
}
