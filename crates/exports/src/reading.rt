// Texts of sheets: the line finder, and a text judged. A text is any bytes.
ghost use Rattle.std.specs.Prelude.{◌≡◌};
ghost use Rattle.meaning.specs.Text.{read};
ghost use Rattle.sheet.specs.Answer.{read_verdict};
ghost use Rattle.sheet.specs.Place.{Placed};
ghost use Rattle.answers.specs.Answers.{verdict_of};

use answers::Verdict;
use sheet::Part;

// Where line n stands in the text, without its LF; 0 and 0 for line 0 or a line that has no LF.
#[unsafe(no_mangle)]
pub extern "C" fn juwenfo_line(text: &[u8], n: usize) -> Part
    ensures { Placed text.now n result }
{
    sheet::place(text, n)
}

// `Misshapen` is judged of the whole text, before any line is read; then the first line that is refused, by the first of `Ungrammatical`, `FarLiteral`,
// `Ungrammatical` where its LO is past its HI, and `Misplaced`.
#[unsafe(no_mangle)]
pub extern "C" fn juwenfo_judge(text: &[u8]) -> Verdict
    ensures { verdict_of result ≡ read_verdict (read text.now) }
{
    sheet::judge_text(text).into()
}
