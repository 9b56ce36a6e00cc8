// The run: its answer, and the numbers that it leaves.
use crate::case::{LENT_ROOM, Sheet};
use replay::same;
use run::run;

// Whether the run answers as is expected, and leaves its numbers so; none if more numbers are lent than there is room for.
pub fn agrees(s: &Sheet) -> Option<bool> {
    let mut lent = [0i64; LENT_ROOM];
    let lent = lent.get_mut(..s.lent.len())?;
    lent.copy_from_slice(s.lent);
    let answer = run(s.text, lent);
    Some(s.case.ran.expects(answer) && same(lent, s.left))
}
