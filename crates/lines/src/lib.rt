// Reading a line of a sheet from its bytes, without its LF: its kind, its register, its range or its form.
#![tactic(auto)]

ghost use Rattle.std.specs.Prelude.{◌≡◌, ◌+◌, ◌≢◌, List, ℕ, Bool, length, drop, get_or, IfOk, MatchResult, true, false};
ghost use Rattle.meaning.specs.Reading.{on_register, bounds, whole_line, judged, read_line};
ghost use Rattle.lines.specs.Answer.{ends as ends_at, ranged as ranged_as, range_from, pair_from, line_from, put_at, Part};

use forms::arg;
use interval::Interval;
use limits::INNER;
use literals::{read_literal, read_register, tail};
use refusals::Cause;

// A line: its register, and its range or the text from its form on.
#[derive(Clone, Copy, Debug, PartialEq, Eq)]
pub enum Line<'a> {
    In(usize, Interval),
    Put(usize, &'a [u8]),
    Hold(usize, Interval),
}

// What stands behind the first n bytes and a space.
fn after_space(text: &[u8], n: usize) -> Result<&[u8], Cause>
    ensures { MatchResult result
        (λ rest. (get_or text.now n 0 ≡ 32) × (rest.now ≡ drop (n + 1) text.now))
        (λ cause. (cause ≡ Cause.Ungrammatical) × (get_or text.now n 0 ≢ 32)) }
{
    tail(text, n).strip_prefix(b" ").ok_or(Cause::Ungrammatical)
}

// Behind the first n bytes stands the closing bracket, and nothing more.
#[tactic(auto, using(crate::proofs::Lines::ends_by))]
fn ends(text: &[u8], n: usize) -> Result<(), Cause>
    ensures { MatchResult result
        (λ _. ends_at text.now n ≡ true)
        (λ cause. (cause ≡ Cause.Ungrammatical) × (ends_at text.now n ≡ false)) }
{
    if tail(text, n) == b")".as_slice() {
        Ok(())
    } else {
        Err(Cause::Ungrammatical)
    }
}

// A range, up to the line's end, where the line is read up to the text.
// Kept: that the text is what the line has from i on stands here and in the two below, since the definitions say where in a line each part ends, and nothing of a part alone.
#[tactic(auto, using(crate::proofs::Lines::bounds_bad, crate::proofs::Lines::bounds_no_space, crate::proofs::Lines::bounds_second_bad, crate::proofs::Lines::bounds_unended, crate::proofs::Lines::bounds_far_lo, crate::proofs::Lines::bounds_far_hi, crate::proofs::Lines::bounds_crossed, crate::proofs::Lines::bounds_is))]
fn range(text: &[u8]) -> Result<Interval, Cause>
    ensures { (line : List ℕ) (i : ℕ) (held : Bool) (r : ℕ) → text.now ≡ drop i line
        → range_from held r result ≡ judged (whole_line line (bounds (ranged_as held r) line i)) }
{
    let lo = read_literal(text).ok_or(Cause::Ungrammatical)?;
    let text = after_space(text, lo.len)?;
    let hi = read_literal(text).ok_or(Cause::Ungrammatical)?;
    ends(text, hi.len)?;
    let lo = lo.value.ok_or(Cause::FarLiteral)?;
    let hi = hi.value.ok_or(Cause::FarLiteral)?;
    if hi < lo {
        return Err(Cause::Ungrammatical);
    }
    Ok(Interval { lo, hi })
}

// A register and a range, up to the line's end, where the line is read up to the text.
#[tactic(auto, using(crate::proofs::Lines::no_register, crate::proofs::Lines::register_no_space, crate::proofs::Lines::register_is, crate::proofs::Lines::left_part))]
fn ranged(text: &[u8]) -> Result<(usize, Interval), Cause>
    ensures { (line : List ℕ) (i : ℕ) (held : Bool) → text.now ≡ drop i line
        → pair_from held result ≡ judged (whole_line line (on_register line i (λ r k. bounds (ranged_as held r) line k))) }
{
    let register = read_register(text).ok_or(Cause::Ungrammatical)?;
    let rest = after_space(text, register.len)?;
    let range = range(rest)?;
    Ok((register.value, range))
}

// The register and the form of a put, up to the line's end, where the line is read up to the text.
#[tactic(auto, using(crate::proofs::Lines::no_register, crate::proofs::Lines::register_no_space, crate::proofs::Lines::register_is, crate::proofs::Lines::left_part, crate::proofs::Lines::put_bad, crate::proofs::Lines::put_unended, crate::proofs::Lines::put_far, crate::proofs::Lines::put_is))]
fn put(text: &[u8]) -> Result<Line<'_>, Cause>
    ensures line { (line : List ℕ) (i : ℕ) → text.now ≡ drop i line
        → line_from result ≡ judged (whole_line line (on_register line i (put_at line))) }
    ensures part { IfOk result (λ put. Part text.now put) }
{
    let register = read_register(text).ok_or(Cause::Ungrammatical)?;
    let form = after_space(text, register.len)?;
    let size = arg(form, INNER).ok_or(Cause::Ungrammatical)?;
    ends(form, size.len)?;
    if size.value {
        return Err(Cause::FarLiteral);
    }
    Ok(Line::Put(register.value, form))
}

// The whole line, without its LF.
#[tactic(auto, using(crate::proofs::Lines::line_in, crate::proofs::Lines::line_put, crate::proofs::Lines::line_hold, crate::proofs::Lines::line_none))]
pub fn read_line(text: &[u8]) -> Result<Line<'_>, Cause>
    ensures line { line_from result ≡ read_line text.now }
    ensures part { IfOk result (λ line. Part text.now line) }
{
    if let Some(rest) = text.strip_prefix(b"(in ") {
        let (register, range) = ranged(rest)?;
        Ok(Line::In(register, range))
    } else if let Some(rest) = text.strip_prefix(b"(put ") {
        put(rest)
    } else if let Some(rest) = text.strip_prefix(b"(hold ") {
        let (register, range) = ranged(rest)?;
        Ok(Line::Hold(register, range))
    } else {
        Err(Cause::Ungrammatical)
    }
}
