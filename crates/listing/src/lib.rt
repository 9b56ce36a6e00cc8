// The listing of a text: the bytes that the program writes for it. The lines themselves are written
// by `wording`; here is which of them a text has.
#![tactic(auto)]

ghost use Rattle.std.specs.Prelude.{◌+◌, ◌≤◌, length};
ghost use Rattle.meaning.specs.Composing.{text};
ghost use Rattle.meaning.specs.Listing.{register_line, listing, listing_part};
ghost use Rattle.writer.specs.Written.{Appends};
ghost use Rattle.texts.specs.Answers.{Writes};
ghost use Rattle.listing.specs.Longest.{longest};

use listed::{RegisterText, Shown};
use refusals::{Cause, Trouble};
use set_values::FormSet;
use wording::{pass_line, register_line, trouble_line};
use writer::{Writer, copy};

// No listing is longer: "pass 256" and LF, and for each register a name counted as three bytes, 16 intervals, each of two numbers of up to 20 bytes behind one space and two points, and LF.
pub const LONGEST: usize = 11081;

// The line of a register.
struct RegisterLine;

impl RegisterText for RegisterLine {
    ghost text = { register_line };

    fn write(out: &mut Writer<u8>, r: usize, set: FormSet) {
        Self::write_lent(out, r, &set);
    }

    #[tactic(auto, using(laws::proofs::Flat::intervals_flat))]
    fn write_lent(out: &mut Writer<u8>, r: usize, set: &FormSet) {
        register_line(out, r, set.ends().set.numbers);
    }
}

// The listing of a text, where there is room for any.
fn list_into(out: &mut Writer<u8>, text: &[u8])
    requires { out.old.len + longest ≤ length out.old.room.now }
    ensures { Appends (listing text.now) out.new out.old }
{
    match &Shown::of(text) {
        Ok(shown) => {
            pass_line(out, shown.count);
            shown.write::<RegisterLine>(out);
        }
        Err(trouble) => match *trouble {
            Trouble::Stopped(cause, line) => trouble_line(out, b"stop ", cause, line),
            Trouble::Refused(cause, line) => trouble_line(out, b"refused ", cause, line),
        },
    }
}

// The bytes of `from` at the front of out, if they fit.
fn hand_over(out: &mut [u8], from: &[u8]) -> Result<usize, Trouble>
    ensures { Writes (text from.now) out.old result out.new }
{
    let n = from.len();
    if out.len() < n {
        return Err(Trouble::Refused(Cause::NoRoom, 0));
    }
    copy(&mut out[..n], from);
    Ok(n)
}

// The whole listing of any text at the front of out; if it does not fit, `NoRoom` with line 0, and out is as it was lent.
pub fn listing(text: &[u8], out: &mut [u8]) -> Result<usize, Trouble>
    ensures { Writes (listing_part text.now) out.old result out.new }
{
    let mut buffer = [0u8; LONGEST];
    let mut whole = Writer::new(&mut buffer);
    list_into(&mut whole, text);
    hand_over(out, whole.written())
}
