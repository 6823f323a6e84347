// The asking calls' cases.
use crate::{DAY_D, Output, pivots};
use clock::Length;
use figures::{Ask, Refusal};
use std::fmt::{self, Write};

// The first five places of a list that a call filled.
fn show_list(
    to: &mut Output,
    name: &str,
    answer: Result<(), Refusal>,
    out: &[u32; 25],
) -> fmt::Result {
    match answer {
        Ok(()) => writeln!(
            to,
            "{name}: {} {} {} {} {}",
            out[0], out[1], out[2], out[3], out[4]
        ),
        Err(refusal) => writeln!(to, "{name}: {refusal}"),
    }
}

fn show_eccentricity(
    to: &mut Output,
    name: &str,
    answer: Result<Option<Length>, Refusal>,
) -> fmt::Result {
    match answer {
        Ok(Some(length)) => writeln!(to, "{name}: {}", length.0),
        Ok(None) => writeln!(to, "{name}: none"),
        Err(refusal) => writeln!(to, "{name}: {refusal}"),
    }
}

// Every asking call on a list of five stops.
fn ask_all(to: &mut Output, list: &[u32; 35], asker: u32, a: u32, w: u32) -> fmt::Result {
    let ask = Ask {
        list,
        n: 5,
        asker,
        a,
        w,
    };
    let mut scratch = [7u32; 16384];
    let mut out = [7u32; 25];
    let from = ask.distances_from(0, &mut out);
    show_list(to, "distances from 0", from, &out)?;
    let back = ask.distances_to(4, &mut out, &mut scratch);
    show_list(to, "distances to 4", back, &out)?;
    let whole = ask.table(&mut out);
    show_list(to, "table", whole, &out)?;
    let forward = ask.forward_eccentricity(0);
    show_eccentricity(to, "forward eccentricity of 0", forward)?;
    let backward = ask.backward_eccentricity(4, &mut scratch);
    show_eccentricity(to, "backward eccentricity of 4", backward)?;
    writeln!(to, "diameter: {}", ask.diameter(&mut scratch))
}

pub fn cases(to: &mut Output) -> fmt::Result {
    let mut list = DAY_D;
    writeln!(to, "day D, asker 0, 100 to 259200")?;
    ask_all(to, &list, 0, 100, 259200)?;
    writeln!(to, "day D, asker 0, 100 to 259201")?;
    ask_all(to, &list, 0, 100, 259201)?;
    pivots::cases(to, &list)?;
    list[18] = 0;
    writeln!(to, "day D with travel 0 in the row of owner 9, asker 0")?;
    ask_all(to, &list, 0, 100, 300)?;
    writeln!(to, "the same, asker 9")?;
    ask_all(to, &list, 9, 100, 300)?;
    writeln!(to, "the same, asker 7")?;
    ask_all(to, &list, 7, 100, 300)
}
