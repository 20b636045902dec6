// Sinks of rows that put each row as it comes.
ghost use Rattle.std.specs.Prelude.{◌≡◌, ◌||◌, []};
ghost use Rattle.std.specs.List.{flat_map};
ghost use Rattle.dict_proto.specs.Streams.{Puts, PutsAll, PutsFront};
ghost use Rattle.dict_session.specs.Rows.{row_octets, info_row, has_some};
ghost use Rattle.dict_index.specs.Found.{row};
ghost use Rattle.dict_desk.specs.Shown.{row_handed};

use crate::asked::Heading;
use dict_desk::{Demand, Row, RowSink, What};
use dict_proto::{Reply, Sink, SinkFault, write_reply};

// Puts a row: as a definition of the database with this heading, or as a line of a list.
fn put_row<K: Sink>(sink: &mut K, what: What, heading: &Heading, row: Row) -> Result<(), SinkFault>
    ensures { Puts result (K.stream sink.old) (K.stream sink.new)
        (row_octets what heading.now.name.bytes heading.now.title.bytes (row_handed row.entry)) }
{
    let name = heading.name.as_str();
    match what {
        What::Entries => {
            let title = heading.title.as_str();
            let reply = Reply::Definition {
                headword: row.shown,
                name,
                title,
                body: row.text,
            };
            write_reply(sink, &reply)
        }
        What::Headwords => {
            let text = row.shown;
            write_reply(sink, &Reply::ListLine { name, text })
        }
    }
}

/// Puts each row that is found in the database with this heading.
#[derive(Drop)]
pub(crate) struct FoundRows<'a, K: Sink> {
    pub sink: &'a mut K,
    pub what: What,
    pub heading: &'a Heading,
}

impl<'a, K: Sink> RowSink for FoundRows<'a, K> {
    ghost use Rattle.std.specs.Prelude.{◌≡◌, refl};
    ghost use Rattle.std.proofs.Common.{◌∙◌};
    ghost use Rattle.dict_proto.proofs.PutLemmas.{puts_none};
    ghost use Rattle.dict_session.specs.RowLemmas.{found_joined, found_stopped};

    ghost takes = { λ a rows b. PutsAll (K.stream a.sink.now) (K.stream b.sink.now) (flat_map (row_octets a.what a.heading.now.name.bytes a.heading.now.title.bytes) rows)
        × (b.sink.ghost_name ≡ a.sink.ghost_name) × (b.what ≡ a.what) × (b.heading.now ≡ a.heading.now) };

    ghost stops = { λ a rows b. PutsFront (K.stream a.sink.now) (K.stream b.sink.now) (flat_map (row_octets a.what a.heading.now.name.bytes a.heading.now.title.bytes) rows)
        × (b.sink.ghost_name ≡ a.sink.ghost_name) };

    fn take(&mut self, row: Row) -> Demand {
        match put_row(self.sink, self.what, self.heading, row) {
            Ok(()) => Demand::More,
            Err(_) => Demand::Stop,
        }
    }

    ghost none = { λ s. (puts_none (K.stream s.sink.now), refl, refl, refl) };

    ghost joined = { λ a b c rows more h k. (found_joined (K.stream a.sink.now) (K.stream b.sink.now) (K.stream c.sink.now) a.what b.what a.heading.now b.heading.now rows more h.2 h.3 h.0 k.0, k.1 ∙ h.1, k.2 ∙ h.2, k.3 ∙ h.3) };

    ghost stopped = { λ a b c rows more rest h k. (found_stopped (K.stream a.sink.now) (K.stream b.sink.now) (K.stream c.sink.now) a.what b.what a.heading.now b.heading.now rows more rest h.2 h.3 h.0 k.0, k.1 ∙ h.1) };
}

/// Puts what a database says of itself behind the line that comes before it, and tells whether it has begun.
#[derive(Drop)]
pub(crate) struct InfoRow<'a, K: Sink> {
    pub sink: &'a mut K,
    pub has_begun: bool,
}

// Puts the line before what a database says of itself, and that text.
fn put_info_row<K: Sink>(sink: &mut K, text: &[u8]) -> Result<(), SinkFault>
    ensures { Puts result (K.stream sink.old) (K.stream sink.new) (info_row (row [] text.now)) }
{
    write_reply(sink, &Reply::InfoHeading)?;
    write_reply(sink, &Reply::InfoText(text))
}

impl<'a, K: Sink> RowSink for InfoRow<'a, K> {
    ghost use Rattle.std.specs.Prelude.{◌≡◌, ◌||◌, refl};
    ghost use Rattle.std.proofs.Common.{◌∙◌};
    ghost use Rattle.dict_proto.proofs.PutLemmas.{puts_none};
    ghost use Rattle.dict_session.specs.RowLemmas.{all_joined, front_joined, some_none, some_joined};

    ghost takes = { λ a rows b. PutsAll (K.stream a.sink.now) (K.stream b.sink.now) (flat_map info_row rows)
        × (b.sink.ghost_name ≡ a.sink.ghost_name) × (b.has_begun ≡ (a.has_begun || has_some rows)) };

    ghost stops = { λ a rows b. PutsFront (K.stream a.sink.now) (K.stream b.sink.now) (flat_map info_row rows)
        × (b.sink.ghost_name ≡ a.sink.ghost_name) };

    fn take(&mut self, row: Row) -> Demand {
        self.has_begun = true;
        match put_info_row(self.sink, row.text) {
            Ok(()) => Demand::More,
            Err(_) => Demand::Stop,
        }
    }

    ghost none = { λ s. (puts_none (K.stream s.sink.now), refl, some_none s.has_begun) };

    ghost joined = { λ a b c rows more h k. (all_joined info_row (K.stream a.sink.now) (K.stream b.sink.now) (K.stream c.sink.now) rows more h.0 k.0, k.1 ∙ h.1, some_joined a.has_begun b.has_begun c.has_begun rows more h.2 k.2) };

    ghost stopped = { λ a b c rows more rest h k. (front_joined info_row (K.stream a.sink.now) (K.stream b.sink.now) (K.stream c.sink.now) rows more rest h.0 k.0, k.1 ∙ h.1) };
}
