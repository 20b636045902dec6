// What holds of every stored line, and of every index of such lines.
ghost use Rattle.std.specs.Prelude.{◌≡◌, ◌≢◌, ◌+◌, ◌≤◌, ◌^◌, ◌<◌, ◌++◌, ◌∷◌, [], ℕ, List, length, map, Some};
ghost use Rattle.std.specs.List.{AllByRecursion};
ghost use Rattle.dict_text.specs.Number.{Spells};
ghost use Rattle.dict_text.specs.Lines.{text_lines};
ghost use Rattle.dict_index.specs.Cuts.{HasNo};
ghost use Rattle.dict_index.specs.Edition.{entry_in};
ghost use Rattle.dict_index.specs.Line.{Line, IsLine};
ghost use Rattle.dict_index.specs.WellFormed.{IsWellFormedEntry};
ghost use Rattle.store_rows.specs.Spelling.{spelling};
ghost use Rattle.store_rows.specs.Stored.{IsStorable, stored_line, stored_index};

/// A stored line is a line of a dictd index that says the same. Of all that do it is the one whose fourth column, where it has
/// one, is another text than the headword. It says one thing, and has no LF. Each lawful entry of a text of fewer than 64 ^ 6 octets has one.
///
/// It does nothing. Its clauses are the law.
pub fn stored_lines()
    ensures spelled { (number : ℕ) → number < 64 ^ 6 → Spells (spelling number) number }
    ensures is_line { (said : Line) → IsStorable said → IsLine (stored_line said) said }
    ensures only { (line : List ℕ) (said : Line) (is : IsLine line said) → is.fourth ≢ Some said.headword → line ≡ stored_line said }
    ensures says_one { (said other : Line) → IsStorable said → IsStorable other → stored_line said ≡ stored_line other → said ≡ other }
    ensures no_newline { (said : Line) → IsStorable said → HasNo 10 (stored_line said) }
    ensures of_entries { (text : List ℕ) (said : Line) → length text < 64 ^ 6 → said.offset + said.size ≤ length text → IsWellFormedEntry (entry_in text said) → IsStorable said }
{}

/// The lines of a stored index are the stored ones, in order, so it says one list of lines; and what goes on from the lines of
/// a front is the index of the others: of one more, where that is written or read behind them, and of none, where what is left
/// doesn't begin with a stored line.
///
/// It does nothing. Its clauses are the law.
pub fn stored_indexes()
    ensures lines { (lines : List Line) → AllByRecursion IsStorable lines → text_lines (stored_index lines) ≡ map stored_line lines }
    ensures says_one { (lines others : List Line) → AllByRecursion IsStorable lines → AllByRecursion IsStorable others → stored_index lines ≡ stored_index others → lines ≡ others }
    ensures goes_on { (front lines : List Line) (rest : List ℕ) → AllByRecursion IsStorable front → AllByRecursion IsStorable lines → stored_index lines ≡ stored_index front ++ rest →
        (more : List Line) × (lines ≡ front ++ more) × (rest ≡ stored_index more) }
    ensures pushed { (front : List Line) (said : Line) → stored_index (front ++ said ∷ []) ≡ stored_index front ++ (stored_line said ++ 10 ∷ []) }
    ensures one_more { (front : List Line) (said : Line) (behind : List ℕ) → stored_index front ++ (stored_line said ++ 10 ∷ behind) ≡ stored_index (front ++ said ∷ []) ++ behind }
    ensures no_more { (front lines : List Line) (rest : List ℕ) → AllByRecursion IsStorable front → AllByRecursion IsStorable lines → rest ≢ [] →
        ((said : Line) (behind : List ℕ) → IsStorable said → rest ≢ stored_line said ++ 10 ∷ behind) → stored_index lines ≢ stored_index front ++ rest }
{}
