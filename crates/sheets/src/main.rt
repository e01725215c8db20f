// Reads example sheets from standard input and writes a line for each: answer (0 accepted, 3 refused), refusal number, place. tests/sheets/make.py made the sheets, and says what
// is due. A sheet in the input is a byte (0: the sheet alone; else every prefix of it), its length (u16, little-endian) and its bytes.
#![tactic(auto)]

use std::io;

fn tell(rt: &impl Print, sheet: &[u8]) -> io::Result<()> {
    match sheet::read(sheet) {
        Ok(_) => println!(rt; "0 0 0"),
        Err(refused) => {
            let number = refused.fault.number();
            let place = refused.place;
            println!(rt; "3 {number} {place}")
        }
    }
}

fn tell_prefixes(rt: &impl Print, sheet: &[u8]) -> io::Result<()> {
    for n in 0..=sheet.len() {
        tell(rt, &sheet[..n])?;
    }
    Ok(())
}

// The sheets of the input, one after the other, as far as each is there whole.
fn tell_all(rt: &impl Print, input: &[u8]) -> io::Result<()> {
    let mut rest = input;
    while let [prefixes, low, high, after @ ..] = rest {
        let length = u16::from_le_bytes([*low, *high]);
        let Some((sheet, others)) = after.split_at_checked(usize::from(length)) else {
            break;
        };
        if *prefixes == 0 {
            tell(rt, sheet)?;
        } else {
            tell_prefixes(rt, sheet)?;
        }
        rest = others;
    }
    Ok(())
}

fn main(rt: HostRuntime) -> io::Result<()> {
    let mut buffer = [0u8; 65536];
    tell_all(&rt, input::read_slice(&mut rt.reader(), &mut buffer))
}
