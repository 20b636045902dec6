// A line cut at its tabs.
ghost use Rattle.std.specs.Prelude.{ℕ, List, Option, MatchOption};
ghost use Rattle.dict_index.specs.Cuts.{HasNo, IsCutAt, AreLast, AreColumns};
ghost use Rattle.dict_index.specs.Views.{octets_of};

use memchr::memchr;

// What stands before the first such octet, and what behind it.
pub(crate) fn cut_at(octet: u8, octets: &[u8]) -> Option<(&[u8], &[u8])>
    ensures { MatchOption result (HasNo octet octets.now) (λ parts. IsCutAt octet octets.now parts.0.now parts.1.now) }
{
    let place = memchr(octet, octets)?;
    Some((&octets[..place], &octets[place + 1..]))
}

/// The three columns of a line, and the fourth where it has one.
#[derive(Clone, Copy)]
pub(crate) struct RawColumns<'a> {
    pub headword: &'a [u8],
    pub offset: &'a [u8],
    pub size: &'a [u8],
    pub shown: Option<&'a [u8]>,
}

// The third column, and the fourth where there is one, of what stands behind two columns, if it has one tab at most.
fn last_columns(rest: &[u8]) -> Option<(&[u8], Option<&[u8]>)>
    ensures { MatchOption result ((third : List ℕ) (fourth : Option (List ℕ)) → ¬ AreLast rest.now third fourth)
        (λ parts. AreLast rest.now parts.0.now (octets_of parts.1)) }
{
    let Some((size, shown)) = cut_at(b'\t', rest) else {
        return Some((rest, None));
    };
    match cut_at(b'\t', shown) {
        Some((_front, _behind)) => None,
        None => Some((size, Some(shown))),
    }
}

// The columns of a line, if it has two tabs or three.
pub(crate) fn columns_of(line: &[u8]) -> Option<RawColumns<'_>>
    ensures { MatchOption result ((first second third : List ℕ) (fourth : Option (List ℕ)) → ¬ AreColumns line.now first second third fourth)
        (λ c. AreColumns line.now c.headword.now c.offset.now c.size.now (octets_of c.shown)) }
{
    let Some((headword, rest)) = cut_at(b'\t', line) else {
        return None;
    };
    let Some((offset, rest)) = cut_at(b'\t', rest) else {
        return None;
    };
    let Some((size, shown)) = last_columns(rest) else {
        return None;
    };
    Some(RawColumns {
        headword,
        offset,
        size,
        shown,
    })
}
