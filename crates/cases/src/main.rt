// Runs the cases of document 01 that are not starred, and prints what came.
#![tactic(auto)]

mod asks;
mod office;
mod pivots;

use std::fmt;

// Day D, five numbers a row.
pub const DAY_D: [u32; 35] = [
    0, 1, 100, 20, 0, 1, 2, 120, 30, 0, 0, 2, 130, 10, 7, 1, 4, 130, 5, 9, 2, 3, 145, 15, 0, 2, 3,
    150, 40, 0, 3, 4, 200, 5, 0,
];

// Standard output. Where nothing can be written, nobody can be told.
#[derive(Clone, Copy)]
pub struct Output;

impl fmt::Write for Output {
    fn write_str(&mut self, text: &str) -> fmt::Result {
        io::write_all(1, text.as_bytes());
        Ok(())
    }
}

fn main() {
    let mut output = Output;
    let _ = office::cases(&mut output).and_then(|()| asks::cases(&mut output));
}
