// The calls for the closest setpoint. A case is one of a set call, with what is asked in the place of the right set: of nearest x, of within x and the distance,
// which stands as the number that has its bits.
use crate::case::{Case, OLD_OUT};
use replay::{ROOM, read_front, same};
use std::io::Read;
use stored::{reply_as_expected, setpoint_as_expected};

impl Case {
    // Whether nearest answers as is stored: its answer is one number, the member. None if a part of the case is too long.
    pub fn nearest_agrees<F: Read>(&self, file: &mut F) -> Option<bool> {
        let mut set = [0i64; 64];
        let mut asked = [0i64; 1];
        let mut want = [0i64; 1];
        let left = read_front(file, &mut set, self.left);
        let right = read_front(file, &mut asked, self.right);
        let stored = read_front(file, &mut want, self.count);
        let (set, _, _) = (left?, right?, stored?);
        let answer = number_intervals::nearest(set, asked[0]);
        Some(setpoint_as_expected(answer, self.number, want[0]))
    }

    // Whether within answers as is stored, and leaves out so; none if a part of the case is too long. Out of line, so that its arrays do not stand under those of the set calls.
    #[inline(never)]
    pub fn within_agrees<F: Read>(&self, file: &mut F) -> Option<bool> {
        let mut set = [0i64; 64];
        let mut asked = [0i64; 2];
        let left = read_front(file, &mut set, self.left);
        let right = read_front(file, &mut asked, self.right);
        let mut want = [OLD_OUT; ROOM];
        let stored = read_front(file, &mut want, self.count);
        let (set, _, _) = (left?, right?, stored?);
        let mut out = [OLD_OUT; ROOM];
        let answer = number_intervals::within(
            set,
            asked[0],
            asked[1].cast_unsigned(),
            out.get_mut(..self.room)?,
        );
        Some(
            reply_as_expected(answer, self.number, self.count, self.flag_after)
                && same(&out, &want),
        )
    }
}
