//! The entries of an edition, one after another.
ghost use Rattle.std.specs.Prelude.{◌≡◌, [], ◌∷◌, ◌++◌, All, length, OnOk, OnErr};
ghost use Rattle.std.specs.Str.{IsUtf8};
ghost use Rattle.store_search.specs.Entries.{Indexed, entry_at, keys_of};

use std::alloc::{AllocError, Global};
use std::marker::Model;
use std::str;
use store_derived::{Span, Spans, Texts};

/// Entries, in the order in which they were put.
#[derive(Drop)]
pub(crate) struct Entries {
    keys: Texts,
    shown: Texts,
    spans: Spans,
}

impl Model for Entries {
    ghost use Rattle.std.specs.Prelude.{List};
    ghost use Rattle.store_search.specs.Entries.{Indexed};

    ghost Value = { List Indexed };

    ghost use Rattle.store_search.specs.Stored.{stored, AreStored};

    ghost view = { λ entries. stored entries.keys entries.shown entries.spans };

    ghost invariant = { λ entries. AreStored entries.keys entries.shown entries.spans };
}

impl Entries {
    pub(crate) fn new(alloc: Global) -> Entries
        ensures { result ≡ [] }
    {
        Entries {
            keys: Texts::new(alloc),
            shown: Texts::new(alloc),
            spans: Spans::new(alloc),
        }
    }

    pub(crate) fn len(&self) -> usize
        ensures { result ≡ length self.now }
    {
        self.spans.len()
    }

    /// The keys of all entries, in their order.
    pub(crate) fn keys(&self) -> &Texts
        ensures keys { result.now ≡ keys_of self.now }
        ensures text { All IsUtf8 (keys_of self.now) }
    {
        &self.keys
    }

    /// What replies show of the entry at a place; nothing where there is none.
    pub(crate) fn shown(&self, at: usize) -> &str
        ensures { result.now ≡ (entry_at self.now at).shown }
    {
        match str::from_utf8(self.shown.get(at)) {
            Ok(text) => text,
            Err(_) => "",
        }
    }

    /// The octets of what replies show of the entry at a place; none where there is none.
    pub(crate) fn shown_octets(&self, at: usize) -> &[u8]
        ensures { result.now ≡ (entry_at self.now at).shown }
    {
        self.shown.get(at)
    }

    /// Where the text of the entry at a place stands; an empty span where there is none.
    pub(crate) fn span(&self, at: usize) -> Span
        ensures start { result.start ≡ (entry_at self.now at).start }
        ensures size { result.size ≡ (entry_at self.now at).size }
    {
        self.spans.get(at)
    }

    /// Puts an entry behind the others. The only error is refused memory; then they are as they were.
    pub(crate) fn push(&mut self, key: &[u8], shown: &str, span: Span) -> Result<(), AllocError>
        requires { IsUtf8 key.now }
        ensures pushed { OnOk result (self.new ≡ self.old ++ record { key = key.now; shown = shown.now; start = span.start; size = span.size } ∷ []) }
        ensures refused { OnErr result (self.new ≡ self.old) }
    {
        put_entry(
            &mut self.keys,
            &mut self.shown,
            &mut self.spans,
            key,
            shown,
            span,
        )
    }

    /// Lets the memory go that is kept for more of them, as far as that can be had.
    pub(crate) fn shrink(&mut self)
        ensures { self.new ≡ self.old }
    {
        self.keys.shrink();
        self.shown.shrink();
        self.spans.shrink();
    }
}

/// Puts the parts of an entry behind those of the others; or leaves all as they were.
fn put_entry(
    keys: &mut Texts,
    shown: &mut Texts,
    spans: &mut Spans,
    key: &[u8],
    text: &str,
    span: Span,
) -> Result<(), AllocError>
    ensures keys { OnOk result (keys.new ≡ keys.old ++ key.now ∷ []) }
    ensures shown { OnOk result (shown.new ≡ shown.old ++ text.now ∷ []) }
    ensures spans { OnOk result (spans.new ≡ spans.old ++ span ∷ []) }
    ensures keys_refused { OnErr result (keys.new ≡ keys.old) }
    ensures shown_refused { OnErr result (shown.new ≡ shown.old) }
    ensures spans_refused { OnErr result (spans.new ≡ spans.old) }
{
    keys.push(key)?;
    if let Err(error) = put_shown(shown, spans, text, span) {
        keys.pop();
        return Err(error);
    }
    Ok(())
}

/// Puts what is shown of an entry and its span behind those of the others; or leaves both as they were.
fn put_shown(shown: &mut Texts, spans: &mut Spans, text: &str, span: Span) -> Result<(), AllocError>
    ensures shown { OnOk result (shown.new ≡ shown.old ++ text.now ∷ []) }
    ensures spans { OnOk result (spans.new ≡ spans.old ++ span ∷ []) }
    ensures shown_refused { OnErr result (shown.new ≡ shown.old) }
    ensures spans_refused { OnErr result (spans.new ≡ spans.old) }
{
    shown.push(text.as_bytes())?;
    if let Err(error) = spans.push(span) {
        shown.pop();
        return Err(error);
    }
    Ok(())
}
