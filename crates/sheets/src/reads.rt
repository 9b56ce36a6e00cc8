// Reading a text, and the line finder.
use crate::case::Sheet;

// Whether the text is judged as is expected.
pub fn judged(s: &Sheet) -> Option<bool> {
    Some(s.case.judged.expects(sheet::judge_text(s.text)))
}

// Whether the bytes of the line are the stored part of the text; none if that part does not lie in the text.
pub fn found(s: &Sheet) -> Option<bool> {
    let c = s.case;
    Some(s.text.get(c.start..c.end)? == sheet::line(s.text, c.line))
}
