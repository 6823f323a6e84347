// The figures program: reads frames from standard input, one a line, and answers each ask.
#![tactic(auto)]

mod input;

use crate::input::{read_all, write};
use printing::header_line;
use taking::Desk;

fn main(rt: HostRuntime) {
    let mut desk = Desk::new();
    let end = header_line(&mut desk.out);
    write(&desk.out, end);
    read_all(&mut rt.stdin(), &mut desk);
}
