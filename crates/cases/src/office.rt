// The office check's cases.
use crate::{DAY_D, Output};
use figures::office_check;
use std::fmt::{self, Write};

fn show(to: &mut Output, name: &str, list: &[u32], n: u32) -> fmt::Result {
    match office_check(list, n) {
        Ok(rows) => writeln!(to, "office, {name}: rows {rows}"),
        Err(refusal) => writeln!(to, "office, {name}: {refusal}"),
    }
}

// Makes every whole row of zeros a row from 0 to 1 that travels a second.
fn make_rows(list: &mut [u32]) {
    for row in list.chunks_exact_mut(5) {
        row[1] = 1;
        row[3] = 1;
    }
}

fn horizon(to: &mut Output) -> fmt::Result {
    show(to, "start 259199 travel 1", &[0, 1, 259199, 1, 0], 5)?;
    show(to, "start 259199 travel 2", &[0, 1, 259199, 2, 0], 5)?;
    let last = u32::MAX;
    show(
        to,
        "start 4294967295 travel 4294967295",
        &[0, 1, last, last, 0],
        5,
    )
}

fn day_d(to: &mut Output) -> fmt::Result {
    let mut list = DAY_D;
    show(to, "day D", &list, 5)?;
    show(to, "day D for 4 stops", &list, 4)?;
    show(to, "day D for 0 stops", &list, 0)?;
    show(to, "day D for 256 stops", &list, 256)?;
    show(to, "day D for 257 stops", &list, 257)?;
    list[18] = 0;
    show(to, "day D with travel 0 in the row of owner 9", &list, 5)?;
    list[4] = 256;
    show(to, "the same with owner 256 in the first row", &list, 5)?;
    list[3] = 0;
    show(to, "the same with travel 0 in the first row too", &list, 5)
}

fn lengths(to: &mut Output) -> fmt::Result {
    let mut full = [0u32; 10240];
    make_rows(&mut full);
    show(to, "2048 rows", &full, 2)?;
    let mut over = [0u32; 10245];
    make_rows(&mut over);
    show(to, "2049 rows", &over, 2)?;
    show(to, "2049 rows for 0 stops", &over, 0)?;
    let long = [0u32; 10246];
    show(to, "10246 numbers for 0 stops", &long, 0)?;
    show(to, "4 numbers for 0 stops", &[0, 0, 0, 0], 0)?;
    show(to, "no rows", &[], 1)
}

pub fn cases(to: &mut Output) -> fmt::Result {
    horizon(to)?;
    day_d(to)?;
    lengths(to)
}
