// A line that is written from its end on, so that a number's digits are written as they are found.
ghost use Rattle.std.specs.Prelude.{◌≡◌, [], ◌∷◌, ◌++◌, ◌≤◌, ◌<◌, length};

// What is written stands from `start` to the end of the buffer. A number has at most ten digits, and a character after them.
#[derive(Drop)]
pub struct Line {
    bytes: [u8; 55],
    start: usize,
    ghost inside: { start ≤ 55 },
}

impl Line {
    ghost use Rattle.log_line.specs.Line.{digit, numeral, text, Before};

    // Nothing is written yet.
    pub(crate) fn new() -> Line
        ensures long { length result.bytes ≡ 55 }
        ensures start { result.start ≡ 55 }
        ensures nothing { text result ≡ [] }
    {
        Line {
            bytes: [0; 55],
            start: 55,
        }
    }

    // The character of a digit.
    fn character(d: u32) -> u8
        requires { d < 10 }
        ensures { result ≡ digit d }
    {
        b'0' + d as u8
    }

    // A character before what is written.
    fn push(&mut self, c: u8)
        requires { 1 ≤ self.old.start }
        ensures { Before 1 (c ∷ []) self.old self.new }
    {
        self.start -= 1;
        self.bytes[self.start] = c;
    }

    // The digits of x before what is written.
    fn put_numeral(&mut self, x: u32)
        requires { 10 ≤ self.old.start }
        ensures { Before 10 (numeral x) self.old self.new }
    {
        let mut rest = x;
        while 10 <= rest {
            self.push(Self::character(rest % 10));
            rest /= 10;
        }
        self.push(Self::character(rest));
    }

    // The digits of x and a character after them, before what is written.
    pub(crate) fn put(&mut self, x: u32, last: u8)
        requires { 11 ≤ self.old.start }
        ensures { Before 11 (numeral x ++ (last ∷ [])) self.old self.new }
    {
        self.push(last);
        self.put_numeral(x);
    }

    // What is written.
    pub fn as_slice(&self) -> &[u8]
        ensures { result.now ≡ text self.now }
    {
        &self.bytes[self.start..]
    }
}
