// The question that was counted last.
ghost use Rattle.std.specs.Prelude.{◌≡◌, IsTrue, IfSome};
ghost use Rattle.dict_index.specs.Found.{is_found};
ghost use Rattle.dict_desk.specs.PlainEntries.{LieWithin};

use crate::edition::PlainEdition;
use crate::entries::PlaceSpan;
use dict_match::{Key, Strategy};

/// A question of an edition that was counted, and the span of what it found.
#[derive(Drop)]
pub(crate) struct CountedQuestion {
    pub number: u64,
    pub strategy: Strategy,
    pub query: Key,
    pub span: PlaceSpan,
}

impl CountedQuestion {
    // A note of the question and its span, or none where there is no memory for it.
    pub(crate) fn note(
        number: u64,
        strategy: Strategy,
        query: &Key,
        span: PlaceSpan,
    ) -> Option<Self>
        ensures { IfSome result (λ counted. (counted.number ≡ number) × (counted.strategy ≡ strategy) × (counted.query ≡ query.now) × (counted.span ≡ span)) }
    {
        let query = query.clone().ok()?;
        Some(CountedQuestion {
            number,
            strategy,
            query,
            span,
        })
    }

    // Whether this is the question that was counted.
    fn is_of(&self, number: u64, strategy: Strategy, query: &Key) -> bool
        ensures { IsTrue result → (self.now.number ≡ number) × (self.now.strategy ≡ strategy) × (self.now.query ≡ query.now) }
    {
        self.number == number
            && self.strategy == strategy
            && self.query.as_bytes() == query.as_bytes()
    }
}

// The span in which all entries of the edition lie that the query finds: that of the question which was counted last,
// where it is this one, or else the whole.
pub(crate) fn span_of(
    counted: Option<&CountedQuestion>,
    edition: &PlainEdition,
    strategy: Strategy,
    query: &Key,
) -> PlaceSpan
    requires { IfSome counted (λ one. one.now.number ≡ edition.now.number → LieWithin (is_found one.now.strategy one.now.query) edition.now.content.entries one.now.span.first one.now.span.end) }
    ensures { LieWithin (is_found strategy query.now) edition.now.content.entries result.first result.end }
{
    match counted {
        Some(counted) if counted.is_of(edition.number(), strategy, query) => counted.span,
        _ => edition.whole(),
    }
}
