// Lines of output, put together part by part.
ghost use Rattle.std.specs.Prelude.{[], ◌∷◌, ◌+◌, ◌≤◌, length};
ghost use Rattle.printing.specs.Lines.{space, header_words, words_of, frame_words};
ghost use Rattle.printing.specs.Parts.{line_room, SameRoom, Puts, PutsNumber, PutsLine};

use figures::Answer;

// A line under way: where it goes, and the place of its next part.
#[derive(Drop)]
struct Line<'a> {
    out: &'a mut [u8],
    at: usize,
}

impl Line<'_> {
    // Puts a text.
    fn text(&mut self, text: &[u8])
        requires { self.old.at + length text.now ≤ length self.old.out.now }
        ensures room { SameRoom self.old.out self.new.out }
        ensures puts { Puts self.old.at text.now self.old.out.now self.new.at self.new.out.now }
    {
        let end = self.at + text.len();
        self.out[self.at..end].copy_from_slice(text);
        self.at = end;
    }

    // Puts a number in decimal.
    fn number(&mut self, x: u64)
        requires { self.old.at + 20 ≤ length self.old.out.now }
        ensures room { SameRoom self.old.out self.new.out }
        ensures puts { PutsNumber [] x self.old.at self.old.out.now self.new.at self.new.out.now }
    {
        let mut digits = [0u8; 20];
        let k = io::decimal(x, &mut digits);
        self.text(&digits[..k]);
    }

    // Puts a space and a number.
    fn field(&mut self, x: u64)
        requires { self.old.at + 21 ≤ length self.old.out.now }
        ensures room { SameRoom self.old.out self.new.out }
        ensures puts { PutsNumber (space ∷ []) x self.old.at self.old.out.now self.new.at self.new.out.now }
    {
        self.text(b" ");
        self.number(x);
    }
}

// The line of an answer.
pub fn answer_line(out: &mut [u8], at: usize, answer: Answer) -> usize
    requires { at + line_room ≤ length out.old }
    ensures { PutsLine (words_of answer) at out.old result out.new }
{
    let mut line = Line { out, at };
    match answer {
        Answer::Value {
            value,
            from,
            to,
            visits,
        } => {
            line.number(value.0.into());
            line.field(from.into());
            line.field(to.into());
            line.field(visits.into());
        }
        Answer::Nothing { visits } => {
            line.text(b"none");
            line.field(visits.into());
        }
        Answer::Refused { number, place } => {
            line.text(b"refused");
            line.field(number.into());
            line.field(place.into());
        }
    }
    line.text(b"\n");
    line.at
}

// The line that names a line of the input, by its number, that is no frame.
pub fn frame_line(out: &mut [u8], at: usize, number: u64) -> usize
    requires { at + line_room ≤ length out.old }
    ensures { PutsLine (frame_words number) at out.old result out.new }
{
    let mut line = Line { out, at };
    line.text(b"frame");
    line.field(number);
    line.text(b"\n");
    line.at
}

// The header, at the front.
pub fn header_line(out: &mut [u8]) -> usize
    requires { line_room ≤ length out.old }
    ensures { PutsLine header_words 0 out.old result out.new }
{
    let mut line = Line { out, at: 0 };
    line.text(b"value from to visits\n");
    line.at
}
