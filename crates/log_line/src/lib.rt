// The line that the program prints (document 01, "Running a log"): "prints these five numbers with single spaces and a newline". It is made as bytes here; writing them out is the program's.
#![tactic(auto)]

mod text;

ghost use Rattle.log_line.specs.Line.{Made};

use runner::Outcome;
pub use text::Line;

const SPACE: u8 = b' ';

const NEWLINE: u8 = b'\n';

// The line of five numbers, made from its end on.
pub fn line_of(o: Outcome) -> Line
    ensures { Made o result }
{
    let mut line = Line::new();
    line.put(o.place, NEWLINE);
    line.put(o.taken, SPACE);
    line.put(u32::from(o.mask), SPACE);
    line.put(u32::from(o.refusal), SPACE);
    line.put(u32::from(o.answer), SPACE);
    line
}
