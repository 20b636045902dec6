//! Whether entries are those that the lines of an edition make.
ghost use Rattle.std.specs.Prelude.{◌≡◌, ◌≢◌, false, IsTrue, map};
ghost use Rattle.std.specs.List.{AllByRecursion};
ghost use Rattle.dict_index.specs.Views.{line_of, HasItsKey};
ghost use Rattle.store_search.specs.Entries.{entry_at, entry_of};

use crate::entries::Entries;
use dict_index::Entry;

/// Whether the entries are those of an edition: their keys, what is shown, and the intervals, one by one.
pub(crate) fn are_entries(entries: &Entries, others: &[Entry]) -> bool
    requires { AllByRecursion HasItsKey others.now }
    ensures same { IsTrue result → entries.now ≡ map entry_of (map line_of others.now) }
    ensures other { result ≡ false → entries.now ≢ map entry_of (map line_of others.now) }
{
    if entries.len() != others.len() {
        return false;
    }
    for place in 0..others.len() {
        if !is_entry(entries, place, &others[place]) {
            return false;
        }
    }
    true
}

/// Whether the entry at a place is this one.
fn is_entry(entries: &Entries, place: usize, other: &Entry) -> bool
    requires { HasItsKey other.now }
    ensures same { IsTrue result → entry_at entries.now place ≡ entry_of (line_of other.now) }
    ensures other { result ≡ false → entry_at entries.now place ≢ entry_of (line_of other.now) }
{
    let span = entries.span(place);
    if span.start != other.offset || span.size != other.size {
        return false;
    }
    if entries.keys().get(place) != other.key.as_bytes() {
        return false;
    }
    entries.shown_octets(place) == other.shown.as_bytes()
}
