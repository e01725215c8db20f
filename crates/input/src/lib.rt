// Reading as much of a file or of standard input as a buffer holds.
#![tactic(auto)]

ghost use Rattle.std.specs.Prelude.{◌≤◌, length};
ghost use Rattle.input.specs.Counts.{IsPrefixLen};

use std::io::Read;

// Reads until buf is full, the input ends or a read fails, and returns how many bytes it put at the
// start of buf. On an empty buf it reads nothing.
pub fn read_full<R: Read>(from: &mut R, buf: &mut [u8]) -> usize
    ensures { IsPrefixLen result buf.new }
{
    let mut done = 0;
    // The count grows by what each read gives, so no range or iterator goes over it.
    while done < buf.len() {
        let n = from.read(&mut buf[done..]).unwrap_or(0);
        if n == 0 {
            break;
        }
        done += n;
    }
    done
}

// Reads as `read_full` does, and returns the bytes that were put into buf.
pub fn read_slice<'a, R: Read>(from: &mut R, buf: &'a mut [u8]) -> &'a [u8]
    ensures { length result.now ≤ length buf.old }
{
    let n = read_full(from, buf);
    &buf[..n]
}
