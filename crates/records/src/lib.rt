// One record of a log (document 01, "Running a log"): five bytes, "a name 0 to 63 or FF for a clock reading, then the time", read as an observation.
#![tactic(auto)]

ghost use Rattle.std.specs.Prelude.{◌≡◌, ◌+◌, ◌<◌, ◌≤◌, length};
ghost use Rattle.layout.specs.Form.{number};
ghost use Rattle.answers.specs.Cases.{seen};
ghost use Rattle.records.specs.Records.{observation, record_from};

use answers::Observation;

// A time, a u32: the four bytes from an offset on, little-endian.
#[tactic(auto, using(crate::proofs::Bytes::four))]
fn time_at(log: &[u8], at: usize) -> u32
    requires { at + 4 ≤ length log.now }
    ensures { result ≡ number log.now 4 at }
{
    u32::from_le_bytes([log[at], log[at + 1], log[at + 2], log[at + 3]])
}

// "a name 0 to 63 or FF for a clock reading"; 64 to 254 are names that observing refuses. "record bytes 0..=63, 64..=254 and 255, decided by match over numbers and ranges": an arm for each.
fn observation(name: u8, time: u32) -> Observation
    ensures { seen result ≡ observation name time }
{
    match name {
        0..=63 => Observation::Event(name, time),
        64..=254 => Observation::Event(name, time),
        255 => Observation::Clock(time),
    }
}

// The record at an offset: five bytes, the name and then the time.
pub fn record_from(log: &[u8], at: usize) -> Observation
    requires { at + 5 ≤ length log.now }
    ensures { seen result ≡ record_from log.now at }
{
    let name = log[at];
    let time = time_at(log, at + 1);
    observation(name, time)
}
