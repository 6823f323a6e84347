// What a call is over once foreign rows are struck out: the asker's own rows, all that numbers 1 to 6 ask of them known.
ghost use Rattle.figures.specs.Parts.{Ready, ready_prop};

use clock::Reading;

// The asker's own rows, the number of stops, and the interval from a to w.
#[derive(Clone, Copy)]
pub(crate) struct Own<'a> {
    pub(crate) rows: &'a [u32],
    pub(crate) n: u32,
    pub(crate) a: Reading,
    pub(crate) w: Reading,
    ghost ready: { Ready n a.0 w.0 rows.now } by { ready_prop n a.0 w.0 rows.now },
}
