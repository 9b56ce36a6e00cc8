// The page for the wheelhouse: the sets of a sheet that passes, one interval on a line of 72 characters. First how many lines there are, then the lines
// themselves, so that a short output is left as it was lent. A sheet that does not pass answers as the check does.
#![tactic(auto)]

ghost use Rattle.std.specs.Prelude.{◌≡◌, ◌*◌, ◌≤◌, length};
ghost use Rattle.meaning.specs.Sheet.{registers};
ghost use Rattle.meaning.specs.Check.{interval_limit};
ghost use Rattle.meaning.specs.Page.{set_rows, rows_text, page};
ghost use Rattle.listed.specs.Showing.{whole};
ghost use Rattle.texts.specs.Answers.{Writes};

use limits::{INTERVALS, REGISTERS};
use listed::{RegisterText, Shown};
use page_lines::{ROW, register_lines};
use refusals::{Cause, Trouble};
use set_values::FormSet;
use writer::Writer;

// No page is longer: a line for each interval that a register may have.
pub const LONGEST: usize = ROW * INTERVALS * REGISTERS;

// The lines of a register.
struct RegisterLines;

impl RegisterText for RegisterLines {
    ghost text = { λ r s. rows_text (set_rows r s) };

    fn write(out: &mut Writer<u8>, r: usize, set: FormSet) {
        Self::write_lent(out, r, &set);
    }

    fn write_lent(out: &mut Writer<u8>, r: usize, set: &FormSet) {
        register_lines(out, r, set.ends().set.numbers);
    }
}

// How many lines the page has.
fn count_lines(shown: &Shown) -> usize
    ensures { (result ≡ length (whole set_rows shown.now)) × (result ≤ interval_limit * registers) }
{
    let mut n = 0;
    for r in 0..REGISTERS {
        if let Some(set) = &shown.set(r) {
            n += set.ends().set.numbers.len() / 2;
        }
    }
    n
}

// The page of any text at the front of out.
pub fn page(sheet: &[u8], out: &mut [u8]) -> Result<usize, Trouble>
    ensures { Writes (page sheet.now) out.old result out.new }
{
    let whole = Shown::of(sheet);
    let shown = match &whole {
        Ok(shown) => shown,
        Err(trouble) => return Err(*trouble),
    };
    let lines = count_lines(shown);
    if out.len() < ROW * lines {
        return Err(Trouble::Refused(Cause::NoRoom, 0));
    }
    let mut page = Writer::new(out);
    shown.write::<RegisterLines>(&mut page);
    Ok(page.len)
}
