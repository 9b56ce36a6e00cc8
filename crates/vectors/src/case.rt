// What a stored case of a call on sets says, and what it expects in out.
use std::io::Read;
use stored::pair;

// What out holds when it is lent; no case has this number.
pub const OLD_OUT: i64 = -8888888;

// What a case says but for its numbers: the lengths of both sets and the left flag; the refusal, count and flag expected; how long work and out are lent, and how many
// numbers of the work are 0 afterwards.
#[derive(Clone, Copy)]
pub struct Case {
    pub left: usize,
    pub right: usize,
    pub flag: bool,
    pub number: u8,
    pub count: usize,
    pub flag_after: bool,
    pub work: usize,
    pub room: usize,
    pub zeroed: usize,
}

impl Case {
    // The next case of the file, if it has one more.
    pub fn read<F: Read>(file: &mut F) -> Option<Self> {
        let mut b = [0u8; 16];
        file.read_exact(&mut b).ok()?;
        Some(Case {
            left: usize::from(b[0]),
            right: usize::from(b[1]),
            flag: b[2] == 1,
            number: b[3],
            count: pair(b[6], b[7]),
            flag_after: b[4] == 1,
            work: pair(b[8], b[9]),
            room: pair(b[10], b[11]),
            zeroed: pair(b[12], b[13]),
        })
    }
}
