// Reads a sheet from standard input and writes its listing to standard output, or with the word `page` its page for the wheelhouse. What goes wrong is said on
// standard error.
#![tactic(auto)]

ghost use Rattle.std.specs.Prelude.{◌≤◌, length, IfOk};

use limits::{LINE, LINES};
use std::env::{Env, FillError};
use std::io;
use std::io::{Input, Read};

// One byte more than the longest sheet has with its LFs: such a text is refused whatever follows.
const ENOUGH: usize = LINES * (LINE + 1) + 1;

// Reads until the buffer is full or the input ends, and returns how many bytes that are.
// Kept: a loop over `read`, since `read_exact` says nothing of the bytes that stand before the end of the input.
fn read_text<I: Read>(input: &mut I, buffer: &mut [u8]) -> io::Result<usize>
    ensures { IfOk result (λ n. n ≤ length buffer.new) }
{
    let mut at = 0;
    while at < buffer.len() {
        let n = input.read(&mut buffer[at..])?;
        if n == 0 {
            return Ok(at);
        }
        at += n;
    }
    Ok(at)
}

// Says what went wrong.
fn complain<R: Eprint>(rt: &R, message: &str) {
    let _ = rt.eprintln(message);
}

// The bytes of an answer, or a complaint.
fn print<R: Print + Eprint>(rt: &R, answer: &[u8]) {
    if rt.write_all(answer).is_err() {
        complain(rt, "the answer cannot be written");
    }
}

// The listing of a text: `out` has room for any, so that one is written.
fn write_listing<R: Print + Eprint>(rt: &R, text: &[u8]) {
    let mut out = [0u8; listing::LONGEST];
    if let Ok(n) = listing::listing(text, &mut out) {
        print(rt, &out[..n]);
    }
}

// The page of a text: `out` has room for any. A sheet that does not pass has the line of its listing.
fn write_page<R: Print + Eprint>(rt: &R, text: &[u8]) {
    let mut out = [0u8; page::LONGEST];
    match page::page(text, &mut out) {
        Ok(n) => print(rt, &out[..n]),
        Err(_) => write_listing(rt, text),
    }
}

// Writes the answer to the sheet on standard input; one that cannot be read has no answer.
fn answer_input<R: Input + Print + Eprint, W: Fn(&R, &[u8])>(rt: &R, write: W)
    requires { W.IsAlwaysCallable write }
{
    let mut text = [0u8; ENOUGH];
    match read_text(&mut rt.reader(), &mut text) {
        Ok(n) => write(rt, &text[..n]),
        Err(_) => complain(rt, "the sheet cannot be read"),
    }
}

// Whether there is an argument i, the program's name being the argument 0.
fn has_argument<R: Env>(rt: &R, i: usize) -> bool {
    let mut word = [0u8; 8];
    !matches!(rt.arg(i, &mut word), Err(FillError::NotPresent))
}

// Whether the first argument is the word `page`.
fn asks_for_page<R: Env>(rt: &R) -> bool {
    let mut word = [0u8; 8];
    match rt.arg(1, &mut word) {
        Ok(n) => &word[..n] == b"page".as_slice(),
        Err(_) => false,
    }
}

// Other arguments are refused: who names a file would else be given the answer for another text.
fn main(rt: HostRuntime) {
    if !has_argument(&rt, 1) {
        answer_input(&rt, write_listing);
    } else if !has_argument(&rt, 2) && asks_for_page(&rt) {
        answer_input(&rt, write_page);
    } else {
        complain(&rt, "usage: juwenfo [page] < SHEET");
    }
}
