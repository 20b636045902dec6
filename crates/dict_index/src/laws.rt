// What every index and every text mean.
ghost use Rattle.std.specs.Prelude.{◌≡◌, ◌≢◌, ◌↔◌, ◌≤◌, ◌⊎◌, ◌++◌, ◌∷◌, ℕ, false, List, [], length, Option, if◌then◌else◌};
ghost use Rattle.std.specs.List.{list_any};
ghost use Rattle.std.specs.Str.{bytes_eq};
ghost use Rattle.dict_text.specs.Characters.{has_control};
ghost use Rattle.dict_match.specs.Key.{key_of};
ghost use Rattle.dict_index.specs.Edition.{Edition, ReadEdition, ShowsHeadwords};
ghost use Rattle.dict_index.specs.Found.{distinct};
ghost use Rattle.dict_index.specs.Meaning.{IsReadEdition, IsEdition, IsFault, HaveThreeColumns};
ghost use Rattle.dict_index.specs.Tests.{IsHeadword};
ghost use Rattle.dict_index.specs.WellFormed.{IsWellFormedEdition};
ghost use Rattle.dict_index.specs.Worked.{worked_index, worked_text, worked_reading};
ghost use Rattle.dict_index.specs.declared.fault.EditionRefusal.{EditionRefusal};

/// Each index and each text mean exactly one thing: one edition, or one refusal with its line.
///
/// It does nothing. Its clauses are the law, of which `read_edition` finds out the side.
pub fn one_meaning()
    ensures some { (index text : List ℕ) → ((reading : ReadEdition) × IsReadEdition index text reading)
        ⊎ ((refusal : EditionRefusal) × (line : Option ℕ) × IsFault index text refusal line) }
    ensures not_both { (index text : List ℕ) (reading : ReadEdition) (refusal : EditionRefusal) (line : Option ℕ) →
        IsReadEdition index text reading → IsFault index text refusal line → ⊥ }
    ensures one_reading { (index text : List ℕ) (a b : ReadEdition) → IsReadEdition index text a → IsReadEdition index text b → a ≡ b }
    ensures one_fault { (index text : List ℕ) (f g : EditionRefusal) (k l : Option ℕ) →
        IsFault index text f k → IsFault index text g l → (f ≡ g) × (k ≡ l) }
{}

/// Each edition that an index and a text say is well formed.
///
/// It does nothing. Its clause is the law, by which a catalogue of editions that were read keeps its limits.
pub fn well_formed_editions()
    ensures { (index text : List ℕ) (edition : Edition) → IsEdition index text edition → IsWellFormedEdition edition }
{}

/// A headword is lawful by whichever version of folding its key is looked at, since a key is empty by the one exactly
/// where it is by the other: so an edition that was lawful before the second version is lawful by it, and each of its
/// headwords has a key by which it is found.
///
/// It does nothing. Its clause is the law.
pub fn lawful_headwords()
    ensures { (headword : List ℕ) → IsHeadword headword
        ↔ ((1 ≤ length headword) × (length headword ≤ 255) × (has_control headword ≡ false) × (key_of headword ≢ [])) }
{}

/// An edition of an index without a fourth column shows each entry by its headword.
///
/// It does nothing. Its clause is the law.
pub fn three_columns()
    ensures { (index text : List ℕ) (edition : Edition) → IsEdition index text edition → HaveThreeColumns index → ShowsHeadwords edition }
{}

/// What a small database says that was worked by hand: the title `Gems`, no info, and three entries.
///
/// It does nothing. Its clause is the example, from the definitions alone.
pub fn worked_edition()
    ensures { IsReadEdition worked_index worked_text worked_reading }
{}

/// Each of some texts once, where it stands first: one more text comes last, unless it is among the earlier ones.
///
/// It does nothing. Its clause is the law.
pub fn distinct_law()
    ensures { (texts : List (List ℕ)) (text : List ℕ) → distinct (texts ++ text ∷ []) ≡ (if list_any (bytes_eq text) texts then distinct texts else distinct texts ++ text ∷ []) }
{}
