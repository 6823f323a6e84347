// The pivot-diameter's cases, on day D to 300.
use crate::Output;
use figures::Ask;
use std::fmt::{self, Write};

fn ask(to: &mut Output, list: &[u32], name: &str, a: u32, pivots: &[u32]) -> fmt::Result {
    let mut scratch = [7u32; 16384];
    let ask = Ask {
        list,
        n: 5,
        asker: 0,
        a,
        w: 300,
    };
    writeln!(
        to,
        "pivots {name}: {}",
        ask.pivot_diameter(pivots, &mut scratch)
    )
}

fn edges(to: &mut Output, list: &[u32]) -> fmt::Result {
    ask(to, list, "(2,100)", 100, &[2, 100])?;
    ask(to, list, "(2,99)", 100, &[2, 99])?;
    ask(to, list, "(2,300)", 100, &[2, 300])?;
    ask(to, list, "(2,301)", 100, &[2, 301])?;
    ask(to, list, "(2,150) (2,301)", 100, &[2, 150, 2, 301])?;
    ask(to, list, "(4,150) (5,150)", 100, &[4, 150, 5, 150])
}

fn lengths(to: &mut Output, list: &[u32]) -> fmt::Result {
    ask(to, list, "none", 100, &[])?;
    ask(to, list, "3 numbers", 100, &[2, 150, 2])?;
    ask(to, list, "(2,2) 16 times, from 2", 2, &[2u32; 32])?;
    ask(to, list, "(2,2) 17 times, from 2", 2, &[2u32; 34])
}

pub fn cases(to: &mut Output, list: &[u32]) -> fmt::Result {
    writeln!(to, "day D, asker 0, 100 to 300 where not said")?;
    edges(to, list)?;
    lengths(to, list)
}
