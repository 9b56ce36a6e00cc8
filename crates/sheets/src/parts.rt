// The parts that write text, byte by byte.
use crate::case::{LISTING_ROOM, PAGE_ROOM, Sheet};
use listing::listing;
use page::page;

// Whether the listing is as stored; none if it is longer than any stored one.
pub fn listed(s: &Sheet) -> Option<bool> {
    let mut out = [0u8; LISTING_ROOM];
    let n = listing(s.text, &mut out).ok()?;
    Some(out.get(..n)? == s.listing)
}

// Whether the page is as stored, or its refusal as is expected.
pub fn paged(s: &Sheet) -> Option<bool> {
    let mut out = [0u8; PAGE_ROOM];
    match page(s.text, &mut out) {
        Ok(n) => Some(s.case.paged.expects(Ok(0)) && out.get(..n)? == s.page),
        refusal => Some(s.case.paged.expects(refusal)),
    }
}
