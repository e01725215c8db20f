// What the files are made of: little-endian numbers, and parts with their length before them. What the file has no more of is `None`.
ghost use Rattle.std.specs.Prelude.{◌≤◌, length, IfSome};

use std::io::Read;

// The next N bytes.
pub(crate) fn read_array<const N: usize, R: Read>(file: &mut R) -> Option<[u8; N]> {
    let mut bytes = [0u8; N];
    file.read_exact(&mut bytes).ok()?;
    Some(bytes)
}

pub fn read_u16<R: Read>(file: &mut R) -> Option<u16> {
    Some(u16::from_le_bytes(read_array(file)?))
}

pub fn read_u32<R: Read>(file: &mut R) -> Option<u32> {
    Some(u32::from_le_bytes(read_array(file)?))
}

// A length of two bytes and so many bytes, which are put at the start of buf; `None` too where buf has no room for them.
pub fn read_part<'a, R: Read>(file: &mut R, buf: &'a mut [u8]) -> Option<&'a [u8]>
    ensures { IfSome result (λ part. length part.now ≤ length buf.old) }
{
    let n = usize::from(read_u16(file)?);
    let part = buf.get_mut(..n)?;
    file.read_exact(part).ok()?;
    Some(part)
}
