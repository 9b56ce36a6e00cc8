// The set calls. A case is 16 bytes that say what is lent and what is expected, then the numbers of the left set, the right set and the answer.
use crate::case::{Case, OLD_OUT};
use refusals::Cause;
use replay::{ROOM, read_front, replay_file, same};
use replies::Written;
use std::io::Read;
use std::rt::Files;
use stored::reply_as_expected;

// What work holds when it is lent; no case has this number.
const OLD_WORK: i64 = -7777777;

impl Case {
    // Whether the call on slices as long as the case says answers as is stored, and leaves out and work so; none if a slice of the case is too long.
    fn agrees<
        F: Read,
        C: Fn(&[i64], bool, &[i64], &mut [i64], &mut [i64]) -> Result<Written, Cause>,
    >(&self, file: &mut F, call: &C) -> Option<bool>
        requires { C.IsAlwaysCallable call.now }
    {
        let mut left = [0i64; 64];
        let mut right = [0i64; 64];
        let left = read_front(file, &mut left, self.left);
        let right = read_front(file, &mut right, self.right);
        let mut want = [OLD_OUT; ROOM];
        let stored = read_front(file, &mut want, self.count);
        let (left, right, _) = (left?, right?, stored?);
        let mut cleared = [OLD_WORK; ROOM];
        cleared.get_mut(..self.zeroed)?.fill(0);
        let mut work = [OLD_WORK; ROOM];
        let mut out = [OLD_OUT; ROOM];
        let answer = call(
            left,
            self.flag,
            right,
            work.get_mut(..self.work)?,
            out.get_mut(..self.room)?,
        );
        let is_answer = reply_as_expected(answer, self.number, self.count, self.flag_after);
        Some(is_answer && same(&work, &cleared) && same(&out, &want))
    }
}

// Replays the cases of a call on the left set, its flag, the right set, work and out.
pub fn replay<
    R: Files + Print + Eprint,
    C: Fn(&[i64], bool, &[i64], &mut [i64], &mut [i64]) -> Result<Written, Cause>,
>(rt: &R, name: &str, call: C)
    requires { C.IsAlwaysCallable call }
{
    replay_file(rt, name, name, Case::read, |file, c| c.agrees(file, &call));
}

// Calls on both sets and out.
// Kept: no part of the closure below, tried there, and the proof did not close.
fn plain<C: Fn(&[i64], &[i64], &mut [i64]) -> Result<Written, Cause>>(
    call: &C,
    left: &[i64],
    right: &[i64],
    out: &mut [i64],
) -> Result<Written, Cause>
    requires { C.IsAlwaysCallable call.now }
{
    call(left, right, out)
}

// Replays the cases of a call on both sets and out alone.
pub fn replay_plain<
    R: Files + Print + Eprint,
    C: Fn(&[i64], &[i64], &mut [i64]) -> Result<Written, Cause>,
>(rt: &R, name: &str, call: C)
    requires { C.IsAlwaysCallable call }
{
    replay(
        rt,
        name,
        |left, _, right, _, out| plain(&call, left, right, out),
    );
}
