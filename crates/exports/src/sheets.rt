// Sheets worked: the run, the check, the listing and the page.
ghost use Rattle.std.specs.Prelude.{◌≡◌};
ghost use Rattle.meaning.specs.Run.{verdict, run_call, run_lent, Ranged};
ghost use Rattle.meaning.specs.Check.{check_call, check_sets, check_work};
ghost use Rattle.meaning.specs.Composing.{text_returns, text_leaves};
ghost use Rattle.meaning.specs.Listing.{listing_part};
ghost use Rattle.meaning.specs.Page.{page};
ghost use Rattle.answers.specs.Answers.{verdict_of, text_of};

use answers::{Text, Verdict};

// `TooShort` where fewer numbers are lent than there are registers, then the refusals of the text, then of the first line that stops `ZeroDivisor`, `HoldBroken` or
// `OutsideIn`.
#[unsafe(no_mangle)]
pub extern "C" fn juwenfo_run(text: &[u8], lent: &mut [i64]) -> Verdict
    ensures result_value { verdict_of result ≡ verdict (run_call text.now lent.old) }
    ensures lent_after { lent.new ≡ run_lent text.now lent.old }
    ensures ranged { Ranged text.now lent.old }
{
    run::run(text, lent).into()
}

// `TooShort` where sets or work is shorter than the check needs, then the refusals of the text, then of the first line that stops `ZeroDivisor` or `HoldBroken`.
#[unsafe(no_mangle)]
pub extern "C" fn juwenfo_check(text: &[u8], sets: &mut [i64], work: &mut [i64]) -> Verdict
    ensures result_value { verdict_of result ≡ verdict (check_call text.now sets.old work.old) }
    ensures sets_after { sets.new ≡ check_sets text.now sets.old work.old }
    ensures work_after { work.new ≡ check_work text.now sets.old work.old }
{
    sheet_check::check(text, sets, work).into()
}

// The whole listing of any text at the front of out; `NoRoom` if it does not fit, and out is as it was lent.
#[unsafe(no_mangle)]
pub extern "C" fn juwenfo_listing(text: &[u8], out: &mut [u8]) -> Text
    ensures result_value { text_of result ≡ text_returns (listing_part text.now) out.old }
    ensures out_after { out.new ≡ text_leaves (listing_part text.now) out.old }
{
    listing::listing(text, out).into()
}

// The page for the wheelhouse at the front of out; a sheet that does not pass is answered as the check does, then `NoRoom` if the page does not fit, and out is as
// it was lent.
#[unsafe(no_mangle)]
pub extern "C" fn juwenfo_page(text: &[u8], out: &mut [u8]) -> Text
    ensures result_value { text_of result ≡ text_returns (page text.now) out.old }
    ensures out_after { out.new ≡ text_leaves (page text.now) out.old }
{
    page::page(text, out).into()
}
