// Runs the cases of cases.bin through the host's call and holds the twelve bytes to those due. It
// prints the five numbers of each case to be shown, a line for each case that differs, and then how
// many cases agree: of all, by answer, by refusal and by what a break came by. The book of each
// accepted sheet is written back too. Then it plays the rounds of plays.bin, and holds the answer and
// every byte of the output to those due.
//
// reference/make.py makes the files, says their formats, and makes what must be printed.
#![tactic(auto)]

use cases::answer::Answer;
use cases::play::Play;
use cases::read::{read_part, read_u16, read_u32};
use cases::tally::Tally;
use cases::{Case, play};
use rule_player::Refusal;
use std::fs::File;
use std::io;
use tables::Table;

// Room for the largest sheet, for a log of two hundred records, and for the choice bytes or the output
// of a play.
const SHEET_ROOM: usize = 8192;

const LOG_ROOM: usize = 1024;

const PLAY_ROOM: usize = 2048;

// What an output is filled with before a play: no name, so that no record leaves it as it is.
const FILL: u8 = 165;

// ---- the book, written back

// The book is written as these bytes, into a buffer of just their length.
fn writes(table: &Table, bytes: &[u8]) -> bool {
    let mut buffer = [0u8; SHEET_ROOM];
    let Some(buffer) = buffer.get_mut(..bytes.len()) else {
        return false;
    };
    sheet_writer::write(table, buffer) == Ok(bytes.len()) && bytes == &buffer[..]
}

// The book is refused a buffer of so many bytes.
fn is_too_short(table: &Table, room: usize) -> bool {
    let mut buffer = [0u8; SHEET_ROOM];
    match buffer.get_mut(..room) {
        Some(buffer) => sheet_writer::write(table, buffer).is_err(),
        None => false,
    }
}

// The sheet's book is written back, and refused a buffer that is one byte shorter.
fn is_written_back(sheet: &[u8]) -> bool {
    let Some((_, shorter)) = sheet.split_last() else {
        return false;
    };
    let b = cases::book_of(sheet);
    is_too_short(&b.table, shorter.len()) && writes(&b.table, sheet)
}

// ---- the cases

fn run_case(
    rt: &impl Print,
    number: u32,
    is_shown: bool,
    case: &Case,
    tally: &mut Tally,
) -> io::Result<()> {
    let mut out = [255u8; 12];
    host::guard4_run(case.sheet, case.log, case.budget, &mut out);
    let out = Answer::from(out);
    if is_shown {
        println!(rt; "{out}")?;
    }
    cases::compare(rt, number, &out, case, tally)?;
    cases::count_written(is_written_back(case.sheet), case, tally);
    Ok(())
}

// Runs `total` cases, or as many as are there.
fn run_cases(
    rt: &impl Print,
    file: &mut File,
    total: u32,
    shown: u32,
    tally: &mut Tally,
) -> io::Result<()> {
    let mut sheet = [0u8; SHEET_ROOM];
    let mut log = [0u8; LOG_ROOM];
    for number in 0..total {
        let Some(case) = Case::read(file, &mut sheet, &mut log) else {
            break;
        };
        run_case(rt, number, number < shown, &case, tally)?;
    }
    Ok(())
}

// Reads how many cases there are and how many of them are to be shown, and runs them.
fn run_file(rt: &impl Print, file: &mut File, tally: &mut Tally) -> io::Result<()> {
    if let Some(total) = read_u32(file)
        && let Some(shown) = read_u32(file)
    {
        run_cases(rt, file, total, shown, tally)?;
    }
    Ok(())
}

// ---- the plays

// The number of records, or 2^64 less 17 or 18.
fn answer_of(answer: Result<usize, Refusal>) -> u64 {
    match answer {
        Ok(records) => records as u64,
        Err(Refusal::NoRule) => play::NO_RULE,
        Err(Refusal::TooLong) => play::TOO_LONG,
    }
}

// Plays the round into as much of out as is its room. Where out is shorter, the answer is none that can be due.
fn play_round(table: &Table, p: &Play, out: &mut [u8]) -> u64 {
    match out.get_mut(..p.room) {
        Some(out) => answer_of(rule_player::play(table, p.rule, p.time, p.choice, out)),
        None => u64::MAX,
    }
}

// The output begins with the records due, and is as it was from there on.
fn is_alike(out: &[u8], records: &[u8]) -> bool {
    match out.strip_prefix(records) {
        Some(rest) => [FILL; PLAY_ROOM].ends_with(rest),
        None => false,
    }
}

fn run_play(
    rt: &impl Print,
    sheet: u32,
    number: usize,
    table: &Table,
    p: &Play,
    tally: &mut Tally,
) -> io::Result<()> {
    let mut out = [FILL; PLAY_ROOM];
    let said = play_round(table, p, &mut out);
    let alike = is_alike(&out, p.records);
    play::compare(rt, sheet, number, said, alike, p.due, tally)
}

// Runs `total` plays of a sheet, or as many as are there.
fn run_plays(
    rt: &impl Print,
    file: &mut File,
    sheet: u32,
    total: usize,
    table: &Table,
    tally: &mut Tally,
) -> io::Result<()> {
    let mut choice = [0u8; PLAY_ROOM];
    let mut records = [0u8; PLAY_ROOM];
    for number in 0..total {
        let Some(p) = Play::read(file, &mut choice, &mut records) else {
            break;
        };
        run_play(rt, sheet, number, table, &p, tally)?;
    }
    Ok(())
}

// Runs the plays of `total` sheets, or of as many as are there.
fn run_sheets(rt: &impl Print, file: &mut File, total: u32, tally: &mut Tally) -> io::Result<()> {
    let mut sheet = [0u8; SHEET_ROOM];
    for number in 0..total {
        let Some(sheet) = read_part(file, &mut sheet) else {
            break;
        };
        let Some(plays) = read_u16(file) else {
            break;
        };
        let b = cases::book_of(sheet);
        run_plays(rt, file, number, usize::from(plays), &b.table, tally)?;
    }
    Ok(())
}

// Reads how many sheets there are, and runs their plays.
fn run_plays_file(rt: &impl Print, file: &mut File, tally: &mut Tally) -> io::Result<()> {
    if let Some(total) = read_u32(file) {
        run_sheets(rt, file, total, tally)?;
    }
    Ok(())
}

fn main(rt: HostRuntime) -> io::Result<()> {
    let mut tally = Tally::default();
    match File::open(&rt, "cases.bin") {
        Ok(mut file) => run_file(&rt, &mut file, &mut tally)?,
        Err(e) => return eprintln!(rt; "cases.bin: {e}"),
    }
    match File::open(&rt, "plays.bin") {
        Ok(mut file) => run_plays_file(&rt, &mut file, &mut tally)?,
        Err(e) => return eprintln!(rt; "plays.bin: {e}"),
    }
    tally.print(&rt)
}
