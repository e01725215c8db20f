// The five numbers of an answer, as the host's call writes them in twelve bytes.
use std::fmt;

// `answer` is 0 for whole, 1 for open, 2 for broken and 3 for refused. It and the refusal stay numbers: any that the call writes is printed as it is.
#[derive(Clone, Copy, PartialEq, Eq)]
pub struct Answer {
    pub answer: u8,
    pub refusal: u8,
    pub mask: u16,
    pub taken: u32,
    pub place: u32,
}

impl From<[u8; 12]> for Answer {
    fn from(bytes: [u8; 12]) -> Answer {
        let [answer, refusal, m0, m1, t0, t1, t2, t3, p0, p1, p2, p3] = bytes;
        Answer {
            answer,
            refusal,
            mask: u16::from_le_bytes([m0, m1]),
            taken: u32::from_le_bytes([t0, t1, t2, t3]),
            place: u32::from_le_bytes([p0, p1, p2, p3]),
        }
    }
}

impl fmt::Display for Answer {
    fn fmt<W: fmt::Write>(&self, f: &mut fmt::Formatter<W>) -> fmt::Result {
        write!(
            f,
            "{} {} {} {} {}",
            self.answer, self.refusal, self.mask, self.taken, self.place
        )
    }
}
