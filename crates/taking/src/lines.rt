// Lines of the input, however it comes in pieces.
ghost use Rattle.std.specs.Prelude.{◌≡◌, ◌≤◌, IfSome, [], ◌∷◌, length};
ghost use Rattle.printing.specs.Lines.{frame_words};
ghost use Rattle.printing.specs.Parts.{PutsLine};
ghost use Rattle.taking.specs.Room.{most_bytes, Ahead, Spare, LineTaken, PieceTaken, EndTaken, BytesTaken, ReadTaken, DayKept};

use crate::state::{Desk, LONGEST};
use printing::frame_line;
use std::ops::ControlFlow;

impl Desk {
    // Names the line, which is no frame. The answer is how many bytes are to print.
    fn name_line(&mut self) -> usize
        requires spare { Spare 1 self.old.day }
        ensures named { PutsLine (frame_words self.old.day.line) self.old.day.made self.old.out result self.new.out }
        ensures same_list { self.new.list ≡ self.old.list }
        ensures same_pivots { self.new.pivots ≡ self.old.pivots }
    {
        frame_line(&mut self.out, self.day.made, self.day.line)
    }

    // The line that was read, up to its end. Where it is no frame, the run ends with so many bytes to print.
    #[tactic(auto, using(crate::specs::Laws::Steps::line_done))]
    fn take_line(&mut self) -> ControlFlow<usize>
        requires spare { Spare 1 self.old.day }
        ensures { LineTaken self.old result self.new }
    {
        let Some(frame) = frames::read_frame(&self.line[..self.day.len]) else {
            return ControlFlow::Break(self.name_line());
        };
        match self.take_frame(frame) {
            Some(()) => {
                self.day.line += 1;
                self.day.len = 0;
                ControlFlow::Continue(())
            }
            None => ControlFlow::Break(self.name_line()),
        }
    }

    // One byte of the input. A line longer than any frame ends the run at its first byte too many.
    #[tactic(auto, using(crate::specs::Laws::Bytes::one_byte))]
    fn take_byte(&mut self, b: u8) -> ControlFlow<usize>
        requires spare { Spare 1 self.old.day }
        ensures { PieceTaken (b ∷ []) self.old.day.made self.old result self.new }
    {
        if b == b'\n' {
            return self.take_line();
        }
        let len = self.day.len;
        if len >= LONGEST {
            return ControlFlow::Break(self.name_line());
        }
        self.line[len] = b;
        self.day.len += 1;
        ControlFlow::Continue(())
    }

    // One piece of the input. What it prints is put after what was made before.
    #[tactic(auto, using(crate::specs::Laws::Bytes::bytes_so_far))]
    fn take_bytes(&mut self, bytes: &[u8]) -> ControlFlow<usize>
        requires spare { Spare (length bytes.now) self.old.day }
        ensures { PieceTaken bytes.now self.old.day.made self.old result self.new }
    {
        for b in bytes {
            self.take_byte(*b)?;
        }
        ControlFlow::Continue(())
    }

    // The end of the input: the last line, where it has no newline. The answer is how many bytes are to print.
    fn take_last(&mut self) -> usize
        requires spare { Spare 1 self.old.day }
        requires made { self.old.day.made ≡ 0 }
        ensures { EndTaken self.old result self.new.out }
    {
        let at_start = self.day.len == 0;
        if at_start {
            return 0;
        }
        match self.take_line() {
            ControlFlow::Continue(()) => self.day.made,
            ControlFlow::Break(made) => made,
        }
    }

    // The bytes of a read, none of them where the input ended. What they print stands at the front of `out`.
    #[tactic(auto, using(std::proofs::lemmas::Bool::Decides::nat_tests))]
    fn take_given(&mut self, bytes: &[u8]) -> ControlFlow<usize>
        requires few { length bytes.now ≤ most_bytes }
        requires ahead { Ahead most_bytes self.old.day }
        ensures { BytesTaken bytes.now self.old result self.new }
    {
        self.day.made = 0;
        if bytes.is_empty() {
            return ControlFlow::Break(self.take_last());
        }
        self.take_bytes(bytes)
    }

    // What one read led to: `read` is the bytes that it gave, none of them where the input ended, and nothing where
    // it failed. Then the run ends, and a line that it cut is not taken. What a read prints stands at the front of `out`.
    // Where the run ends, the day is as it was.
    pub fn take_read(&mut self, read: Option<&[u8]>) -> ControlFlow<usize>
        requires few { IfSome read (λ b. length b.now ≤ most_bytes) }
        requires ahead { Ahead most_bytes self.old.day }
        ensures read { ReadTaken read.entry self.old result self.new }
        ensures day { DayKept self.old.day result self.new.day }
    {
        let Some(bytes) = read else {
            return ControlFlow::Break(0);
        };
        let day = self.day;
        let end = self.take_given(bytes);
        if end.is_break() {
            self.day = day;
        }
        end
    }
}
