// The plays of plays.bin: what is due for each, held to what was said and written.
ghost use Rattle.std.specs.Prelude.{◌≡◌, ◌≤◌, length, IfSome, OnErr};

use crate::read::{read_array, read_part, read_u16, read_u32};
use crate::tally::Tally;
use std::io;
use std::io::Read;

// Refusals 17 and 18, as answers.
pub const NO_RULE: u64 = 0xFFFF_FFFF_FFFF_FFEF;

pub const TOO_LONG: u64 = 0xFFFF_FFFF_FFFF_FFEE;

// A round to play: the choice bytes, the room of the output, the rule, the time, and what is due: the answer, which stays the number that the file has and a line of a difference prints, and the records.
#[derive(Clone, Copy)]
pub struct Play<'a> {
    pub choice: &'a [u8],
    pub room: usize,
    pub rule: u32,
    pub time: u32,
    pub due: u64,
    pub records: &'a [u8],
}

impl<'a> Play<'a> {
    // The next play of the file; the buffers that are lent take its choice bytes and its records.
    pub fn read<R: Read>(
        file: &mut R,
        choice: &'a mut [u8],
        records: &'a mut [u8],
    ) -> Option<Play<'a>>
        ensures { IfSome result (λ p. (length p.choice.now ≤ length choice.old) × (length p.records.now ≤ length records.old)) }
    {
        let choice = read_part(file, choice)?;
        let room = usize::from(read_u16(file)?);
        let rule = read_u32(file)?;
        let time = read_u32(file)?;
        let due = u64::from_le_bytes(read_array(file)?);
        let records = read_part(file, records)?;
        Some(Play {
            choice,
            room,
            rule,
            time,
            due,
            records,
        })
    }
}

fn print_difference(
    rt: &impl Print,
    sheet: u32,
    number: usize,
    said: u64,
    due: u64,
) -> io::Result<()> {
    let but = if said == due { ", but other bytes" } else { "" };
    println!(rt; "sheet {sheet}, play {number}: {said}, due {due}{but}")
}

// Counts the play as due and, where the answer agrees and the output is alike to its last byte, as met. A write that fails leaves it counted as due alone.
pub fn compare(
    rt: &impl Print,
    sheet: u32,
    number: usize,
    said: u64,
    alike: bool,
    due: u64,
    tally: &mut Tally,
) -> io::Result<()>
    ensures { OnErr result (tally.new.mets ≡ tally.old.mets) }
{
    tally.dues.count_play(due);
    if said == due && alike {
        tally.mets.count_play(due);
    } else {
        print_difference(rt, sheet, number, said, due)?;
    }
    Ok(())
}
