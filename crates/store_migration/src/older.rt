// The older versions, by how their tables are laid out.
/// How the tables of an older version are laid out.
#[derive(Clone, Copy, Debug, PartialEq, Eq)]
pub(crate) enum Older {
    /// Version 1: entries without keys.
    Plain,
    /// Versions 2 and 3: entries with keys, words and grams.
    Keyed,
    /// Version 4: the same, and of each entry what is shown.
    Shown,
}
