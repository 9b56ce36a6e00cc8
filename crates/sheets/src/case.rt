// A stored sheet: 36 bytes that say how long its parts are and what is expected, then the text, the numbers lent to the run, the numbers that it leaves,
// the numbers of the check's sets that are not 0 with their places, the listing, and the page.
use limits::SETS;
use replay::{ROOM, read_bytes, read_front, read_full, read_number};
use std::io::Read;
use stored::{Verdict, pair, verdict_in};

// What the sets hold when they are lent to the check.
pub const OLD_SETS: i64 = -3333333;

// More bytes than a stored text has.
const TEXT_ROOM: usize = 65536;

// More bytes than a stored listing has.
pub const LISTING_ROOM: usize = 4096;

// More bytes than a stored page has.
pub const PAGE_ROOM: usize = 65536;

// More numbers than are lent to a run.
pub const LENT_ROOM: usize = 64;

// Lengths of the text, of the lent numbers, of the check's two slices, of the listing and of the page; how many numbers of the sets are stored; whether the
// work is cleared; what reading, run, check and page answer; and a line number with the start and end of its bytes.
// Kept: lengths and whether the work is cleared, no plainer as slices, since the file holds them apart from the parts, which `Sheet` has.
#[derive(Clone, Copy)]
pub struct Case {
    pub text: usize,
    pub lent: usize,
    pub cleared: bool,
    pub judged: Verdict,
    pub ran: Verdict,
    pub checked: Verdict,
    pub sets: usize,
    pub work: usize,
    pub stored: usize,
    pub listed: usize,
    pub line: usize,
    pub start: usize,
    pub end: usize,
    pub page: usize,
    pub paged: Verdict,
}

// A case with its parts, each as long as the case says.
#[derive(Clone, Copy)]
pub struct Sheet<'a> {
    pub case: &'a Case,
    pub text: &'a [u8],
    pub lent: &'a [i64],
    pub left: &'a [i64],
    pub sets: &'a [i64],
    pub listing: &'a [u8],
    pub page: &'a [u8],
}

// One stored number of the sets, put at its place, if there is one; bytes past the file's end read as 0.
fn read_place<F: Read>(file: &mut F, sets: &mut [i64]) {
    let mut b = [0u8; 2];
    read_full(file, &mut b);
    let number = read_number(file);
    if let Some(place) = sets.get_mut(pair(b[0], b[1])) {
        *place = number;
    }
}

impl Case {
    // The next case of the file, if it has one more.
    pub fn read<F: Read>(file: &mut F) -> Option<Self> {
        let mut b = [0u8; 36];
        file.read_exact(&mut b).ok()?;
        Some(Case {
            text: pair(b[0], b[1]),
            lent: usize::from(b[2]),
            cleared: b[3] == 1,
            judged: verdict_in(b[4], b[5], b[6], b[7]),
            ran: verdict_in(b[8], b[9], b[10], b[11]),
            checked: verdict_in(b[12], b[13], b[14], b[15]),
            sets: pair(b[16], b[17]),
            work: pair(b[18], b[19]),
            stored: pair(b[20], b[21]),
            listed: pair(b[22], b[23]),
            line: pair(b[24], b[25]),
            start: pair(b[26], b[27]),
            end: pair(b[28], b[29]),
            page: pair(b[30], b[31]),
            paged: verdict_in(b[32], b[33], b[34], b[35]),
        })
    }

    // The sets as the check is to leave them: as lent, or after a pass those of the registers, of which those that are not 0 are stored.
    fn read_sets<F: Read>(&self, file: &mut F, sets: &mut [i64; ROOM]) {
        if self.checked.kind == 0 {
            sets[..SETS].fill(0);
            for _ in 0..self.stored {
                read_place(file, sets);
            }
        }
    }

    // Whether the sheet of a case passes the test; none if a part of it is too long, if the file ends in one of its texts, or if the test has no answer. All parts
    // are read before the first one that is missing counts, so that the next case begins where this one ends.
    pub fn passes<F: Read, T: Fn(&Sheet) -> Option<bool>>(
        &self,
        file: &mut F,
        test: &T,
    ) -> Option<bool>
        requires { T.IsAlwaysCallable test.now }
    {
        let mut text = [0u8; TEXT_ROOM];
        let mut lent = [0i64; LENT_ROOM];
        let mut left = [0i64; LENT_ROOM];
        let mut listing = [0u8; LISTING_ROOM];
        let mut page = [0u8; PAGE_ROOM];
        let text = read_bytes(file, &mut text, self.text);
        let lent = read_front(file, &mut lent, self.lent);
        let left = read_front(file, &mut left, self.lent);
        let mut sets = [OLD_SETS; ROOM];
        self.read_sets(file, &mut sets);
        let listing = read_bytes(file, &mut listing, self.listed);
        let page = read_bytes(file, &mut page, self.page);
        test(&Sheet {
            case: self,
            text: text?,
            lent: lent?,
            left: left?,
            sets: &sets,
            listing: listing?,
            page: page?,
        })
    }
}
