// Stored cases: numbers read from a file, a call replayed on each case of it, and a line of report. What a file holds is open: a function that reads one
// promises at most whether there is room for it.
#![tactic(auto)]

ghost use Rattle.std.specs.Prelude.{◌≡◌, ◌≤◌, ◌↔◌, IsTrue, leb, length, is_some, IfSome, OnSome, None};
ghost use Rattle.replay.specs.Numbered.{ReadsNumber};
ghost use Rattle.replay.specs.Tallied.{tallied};

use std::fs;
use std::io::Read;
use std::rt::Files;

// More numbers than any slice of a case has.
pub const ROOM: usize = 8256;

// More cases than a file has: a proved loop has to end, and nothing says that a file does.
const CASES: u64 = 1000000;

// Reads until b is full, the file ends or a read fails, and returns how many bytes it put at the front of b.
// Kept: a loop over `read`, since `read_exact` says nothing of the bytes that stand before the end of a file.
pub fn read_full<F: Read>(file: &mut F, b: &mut [u8]) -> usize
    ensures { result ≤ length b.new }
{
    let mut at = 0;
    while at < b.len() {
        match file.read(&mut b[at..]) {
            Ok(0) => return at,
            Ok(n) => at += n,
            Err(_) => return at,
        }
    }
    at
}

// The next number of the file; none if the file ends before the last of its bytes.
pub fn next_number<F: Read>(file: &mut F) -> Option<i64>
    ensures { ReadsNumber (F.remaining file.old) (F.remaining file.new) result }
{
    let mut bytes = [0u8; 8];
    file.read_exact(&mut bytes).ok()?;
    Some(stored::number_in(&bytes))
}

// The next number of the file; bytes past its end read as 0.
// Kept: no option, since a public function that could not fail still cannot; `next_number` can.
pub fn read_number<F: Read>(file: &mut F) -> i64 {
    let mut bytes = [0u8; 8];
    read_full(file, &mut bytes);
    stored::number_in(&bytes)
}

// As many numbers of the file as s has places.
pub fn read_numbers<F: Read>(file: &mut F, s: &mut [i64]) {
    for x in s.iter_mut() {
        *x = read_number(file);
    }
}

// The next n numbers of the file, at the front of s; none if s is too short.
pub fn read_front<'a, F: Read>(file: &mut F, s: &'a mut [i64], n: usize) -> Option<&'a mut [i64]>
    ensures fits { is_some result ≡ leb n (length s.old) }
    ensures len { IfSome result (λ part. length part.now ≡ n) }
{
    if n > s.len() {
        return None;
    }
    let numbers = &mut s[..n];
    read_numbers(file, numbers);
    Some(numbers)
}

// The next n bytes of the file, at the front of s; none if s or the file is too short.
pub fn read_bytes<'a, F: Read>(file: &mut F, s: &'a mut [u8], n: usize) -> Option<&'a mut [u8]>
    ensures fits { OnSome result (n ≤ length s.old) }
    ensures len { IfSome result (λ part. length part.now ≡ n) }
{
    if n > s.len() {
        return None;
    }
    let bytes = &mut s[..n];
    file.read_exact(bytes).ok()?;
    Some(bytes)
}

// Whether a and b hold the same numbers.
pub fn same(a: &[i64], b: &[i64]) -> bool
    ensures { IsTrue result ↔ (a.now ≡ b.now) }
{
    a == b
}

// How many cases were replayed, how many of them differ, and the number of the first that does, counted from 1.
#[derive(Clone, Copy, Debug, Default, PartialEq, Eq)]
pub struct Tally {
    pub cases: u64,
    pub differ: u64,
    pub first: Option<u64>,
}

impl Tally {
    pub fn new() -> Self
        ensures cases { result.cases ≡ 0 }
        ensures differ { result.differ ≡ 0 }
        ensures first { result.first ≡ None }
    {
        Tally::default()
    }

    // With one case more, which agrees or differs.
    pub fn counted(mut self, agrees: bool) -> Self
        ensures { result ≡ tallied agrees self }
    {
        self.cases = self.cases.saturating_add(1);
        if !agrees {
            if self.differ == 0 {
                self.first = Some(self.cases);
            }
            self.differ = self.differ.saturating_add(1);
        }
        self
    }
}

// All cases of a file: `next` reads one, if the file has one more, and `agrees` goes on in the file and says whether the answer is the stored one; a case that
// cannot be lent its slices does not agree.
pub fn replay_cases<F: Read, C, N: Fn(&mut F) -> Option<C>, A: Fn(&mut F, C) -> Option<bool>>(
    file: &mut F,
    next: N,
    agrees: A,
) -> Tally
    requires next { N.IsAlwaysCallable next }
    requires agrees { A.IsAlwaysCallable agrees }
    ensures { result.differ ≤ result.cases }
{
    let mut tally = Tally::new();
    for _ in 0..CASES {
        match next(file) {
            Some(case) => tally = tally.counted(agrees(file, case).unwrap_or(false)),
            None => break,
        }
    }
    tally
}

// Writes "NAME CASES ok", or "NAME CASES differ: N, the first is K", and the end of the line. What cannot be written is left out.
pub fn report<R: Print>(rt: &R, name: &[u8], tally: Tally) {
    let _ = rt.write_all(name);
    let _ = if tally.differ == 0 {
        println!(rt; " {} ok", tally.cases)
    } else {
        println!(rt;
            " {} differ: {}, the first is {}",
            tally.cases,
            tally.differ,
            tally.first.unwrap_or(0)
        )
    };
}

// Replays the cases of one file, and reports under a name; or says on standard error why the file cannot be opened.
pub fn replay_file<
    R: Files + Print + Eprint,
    C,
    N: Fn(&mut R::File) -> Option<C>,
    A: Fn(&mut R::File, C) -> Option<bool>,
>(rt: &R, path: &str, name: &str, next: N, agrees: A)
    requires next { N.IsAlwaysCallable next }
    requires agrees { A.IsAlwaysCallable agrees }
{
    match fs::open(rt, path) {
        Ok(mut file) => report(rt, name.as_bytes(), replay_cases(&mut file, next, agrees)),
        Err(e) => {
            let _ = eprintln!(rt; "{path}: {e}");
        }
    }
}
