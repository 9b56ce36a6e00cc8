// The check: its answer, the sets and the work that it leaves.
use crate::case::{OLD_SETS, Sheet};
use limits::WORK;
use replay::{ROOM, same};
use sheet_check::check;

// What the work holds when it is lent.
const OLD_WORK: i64 = -4444444;

// Whether the check on slices as long as the case says answers as is expected, and leaves the sets and the work so; none if a slice of the case is too long.
pub fn agrees(s: &Sheet) -> Option<bool> {
    let c = s.case;
    let mut sets = [OLD_SETS; ROOM];
    let mut work = [OLD_WORK; ROOM];
    let mut cleared = [OLD_WORK; ROOM];
    if c.cleared {
        cleared[..WORK].fill(0);
    }
    let answer = check(s.text, sets.get_mut(..c.sets)?, work.get_mut(..c.work)?);
    Some(c.checked.expects(answer) && same(&sets, s.sets) && same(&work, &cleared))
}
