// What takes rows.
ghost use Rattle.std.specs.Prelude.{◌≡◌, List, [], ◌∷◌, ◌++◌};
ghost use Rattle.dict_index.specs.Found.{Row as ShownRow};
ghost use Rattle.dict_desk.specs.Shown.{row_handed};

/// Whether a sink wants more rows.
#[derive(Clone, Copy, Debug, PartialEq, Eq)]
pub enum Demand {
    More,
    Stop,
}

/// A row that a desk hands out.
#[derive(Clone, Copy, Debug)]
pub struct Row<'a> {
    /// What replies show of an entry.
    pub shown: &'a str,
    /// The entry's text, or none.
    pub text: &'a [u8],
}

/// What takes rows, one after the other. What a sink makes of them may not be known, as the octets of a socket aren't;
/// so what it took is a relation between two of its states and the rows, and no value of it.
pub trait RowSink {
    // From the first state, taking these rows whole leaves the second.
    ghost takes: { Self → List ShownRow → Self → Type 0 };

    // From the first state it was handed a front of these rows, and stopped at the last of that front, in the second.
    ghost stops: { Self → List ShownRow → Self → Type 0 };

    /// Takes a row, and tells whether it wants more. After a stop nothing more is handed to it.
    fn take(&mut self, row: Row) -> Demand
        ensures more { result ≡ Demand.More → takes self.old (row_handed row.entry ∷ []) self.new }
        ensures stop { result ≡ Demand.Stop → stops self.old (row_handed row.entry ∷ []) self.new };

    ghost none: { (s : Self) → takes s [] s };

    ghost joined: { (a b c : Self) (rows more : List ShownRow) → takes a rows b → takes b more c → takes a (rows ++ more) c };

    ghost stopped: { (a b c : Self) (rows more rest : List ShownRow) → takes a rows b → stops b more c → stops a (rows ++ (more ++ rest)) c };
}
