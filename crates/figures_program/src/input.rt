// Standard input, read piece by piece: what was read is taken, and what it prints is written.
ghost use Rattle.std.specs.Prelude.{◌≤◌};
ghost use Rattle.taking.specs.Room.{out_room};

use std::io::{Read, Stdin};
use std::ops::ControlFlow;
use taking::{Day, Desk, Out};

// Nothing says that the input ends, so the reads are counted up to a number that no run reaches: at a million
// reads a second it lasts for 71 years. No line's number wraps by then.
const MOST_READS: u64 = 2251799813685248;

// The first bytes of `out` go to standard output.
pub fn write(out: &Out, made: usize)
    requires { made ≤ out_room }
{
    io::write_all(1, &out[..made]);
}

pub fn read_all(input: &mut Stdin, desk: &mut Desk) {
    let mut buffer = io::buffer();
    desk.day = Day::new();
    for _ in 0..MOST_READS {
        let read = input.read(&mut buffer).ok().map(|n| &buffer[..n]);
        match desk.take_read(read) {
            ControlFlow::Continue(()) => write(&desk.out, desk.day.made),
            ControlFlow::Break(made) => {
                write(&desk.out, made);
                return;
            }
        }
    }
}
