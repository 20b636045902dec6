// What holds of every key, every list of words, every query and every strategy.
ghost use Rattle.std.specs.Prelude.{◌≡◌, ◌↔◌, [], ◌∷◌, All, IsTrue, IsAscii, List, codes, ℕ, Some};
ghost use Rattle.std.specs.Str.{IsUtf8, chars, encode_utf8_all};
ghost use Rattle.dict_text.specs.Blanks.{without_blanks_at_ends};
ghost use Rattle.dict_text.specs.Characters.{is_blank};
ghost use Rattle.dict_match.specs.FirstVersion.{first_key_of};
ghost use Rattle.dict_match.specs.Key.{key_of, reserved_key_of};
ghost use Rattle.caseless.specs.Caseless.{default_case_fold};
ghost use Rattle.std.specs.Char.{IsScalar};
ghost use Rattle.dict_match.specs.Words.{AreLongestRuns, words_between_blanks};
ghost use Rattle.dict_match.specs.Matching.{Hits, is_hit};
ghost use Rattle.dict_match.specs.StrategyText.{strategy_name, strategies, strategy_named, AreEachOnce};
ghost use Rattle.dict_match.specs.declared.strategy.Strategy.{Strategy};

/// A full case folding of scalar values has scalar values only.
pub fn scalar_law()
    ensures { (cs : List ℕ) → All IsScalar cs → All IsScalar (default_case_fold cs) }
{}

/// A key is text where the text is, it has no blank at its ends, and it is empty only where the text is blanks alone.
#[tactic(auto, using(crate::proofs::VersionLaws::laws_of_keys))]
pub fn key_laws()
    ensures utf8 { (text : List ℕ) → IsUtf8 text → IsUtf8 (key_of text) }
    ensures ends { (text : List ℕ) → without_blanks_at_ends (key_of text) ≡ key_of text }
    ensures empty { (text : List ℕ) → (key_of text ≡ []) ↔ All (λ c. IsTrue (is_blank c)) (chars text) }
    ensures reserved_utf8 { (text : List ℕ) → IsUtf8 text → IsUtf8 (reserved_key_of text) }
    ensures reserved_ends { (text : List ℕ) → without_blanks_at_ends (reserved_key_of text) ≡ reserved_key_of text }
    ensures reserved_empty { (text : List ℕ) → (reserved_key_of text ≡ []) ↔ All (λ c. IsTrue (is_blank c)) (chars text) }
{}

/// The two versions of folding: a text in ASCII has one key by both; a key is empty by one where it is by the other;
/// and the first is the rule as it was written, which lowers what is left once it has been filtered.
#[tactic(auto, using(crate::proofs::VersionLaws::laws_of_versions))]
pub fn version_laws()
    ensures ascii { (text : List ℕ) → IsAscii text → key_of text ≡ reserved_key_of text }
    ensures empty_alike { (text : List ℕ) → (key_of text ≡ []) ↔ (reserved_key_of text ≡ []) }
    ensures as_written { (text : List ℕ) → reserved_key_of text ≡ first_key_of text }
{}

/// Worked keys in ASCII.
#[tactic(auto, unfolding(crate::proofs::Computing::keys))]
pub fn worked_ascii_keys()
    ensures two_words { key_of (codes "Fire Opal") ≡ codes "fire opal" }
    ensures signs_alone { key_of (codes " a - \tB ") ≡ codes "a b" }
    ensures signs_within { key_of (codes "00-database-short") ≡ codes "00databaseshort" }
    ensures apostrophe { key_of (codes "o'clock") ≡ codes "oclock" }
    ensures nothing_left { key_of (codes "+ +") ≡ codes "+ +" }
    ensures sign_in_front { key_of (codes "+a") ≡ codes "a" }
    ensures blanks_alone { key_of (codes "\t ") ≡ [] }
{}

/// Worked keys past ASCII, computed through the tables of Unicode.
#[tactic(auto, unfolding(crate::proofs::Computing::keys))]
pub fn worked_keys()
    ensures accents { key_of (encode_utf8_all (codes "ÉTÉ")) ≡ encode_utf8_all (codes "été") }
    ensures sharp_s { key_of (encode_utf8_all (codes "Straße")) ≡ encode_utf8_all (codes "strasse") }
    ensures capital_sigmas { key_of (encode_utf8_all (codes "ΣΑΣ")) ≡ encode_utf8_all (codes "σασ") }
    ensures last_sigma { key_of (encode_utf8_all (codes "σας")) ≡ encode_utf8_all (codes "σασ") }
    ensures joining_mark { key_of (encode_utf8_all (codes "don’t")) ≡ encode_utf8_all (codes "dont") }
    ensures dash_alone { key_of (encode_utf8_all (codes "—")) ≡ encode_utf8_all (codes "—") }
    ensures dash_between_blanks { key_of (encode_utf8_all (codes " — ")) ≡ encode_utf8_all (codes "—") }
    ensures one_half { key_of (encode_utf8_all (codes "½ a")) ≡ encode_utf8_all (codes "½ a") }
    // a key that is longer than its text
    ensures longer { key_of (encode_utf8_all (codes "ŉ")) ≡ encode_utf8_all (codes "ʼn") }
    // letters whose folding has marks that are no letters: they fall away
    ensures dotted_i { key_of (encode_utf8_all (codes "İ")) ≡ codes "i" }
    ensures iota_with_marks { key_of (encode_utf8_all (codes "ΐ")) ≡ encode_utf8_all (codes "ι") }
    // an e and a combining acute accent: two characters, which no normal form makes into one
    ensures combining_accent { key_of (encode_utf8_all (101 ∷ 769 ∷ [])) ≡ codes "e" }
    // Hebrew: a bet with the points sheva and dagesh, which stay; the accent U+0591 falls away
    ensures hebrew_points { key_of (encode_utf8_all (1489 ∷ 1456 ∷ 1468 ∷ [])) ≡ encode_utf8_all (1489 ∷ 1456 ∷ 1468 ∷ []) }
    ensures hebrew_accent { key_of (encode_utf8_all (1489 ∷ 1425 ∷ [])) ≡ encode_utf8_all (1489 ∷ []) }
    // Devanagari vowel signs stay, the virama (U+094D) falls away
    ensures devanagari { key_of (encode_utf8_all (codes "हिन्दी")) ≡ encode_utf8_all (codes "हिनदी") }
    // a long s is past ASCII and folds into it, so this headword is searched as if it were reserved, and isn't
    ensures long_s { key_of (encode_utf8_all (codes "00-databaſe-short")) ≡ codes "00databaseshort" }
    ensures long_s_stays { reserved_key_of (encode_utf8_all (codes "00-databaſe-short")) ≡ encode_utf8_all (codes "00databaſeshort") }
    // by the first version, letters past ASCII keep their case
    ensures accents_by_the_first { reserved_key_of (encode_utf8_all (codes "ÉTÉ")) ≡ encode_utf8_all (codes "ÉtÉ") }
{}

/// The words of a list are its longest runs without blanks, all of them, in order.
#[tactic(auto, using(crate::proofs::WordLaws::runs_are_words))]
pub fn word_laws()
    ensures { (cs : List ℕ) (words : List (List ℕ)) → (words_between_blanks cs ≡ words) ↔ AreLongestRuns cs words }
{}

/// What makes a hit is decided by a test of both keys.
#[tactic(auto, using(crate::proofs::DecideLemmas::hit_law))]
pub fn hit_laws()
    ensures { (strategy : Strategy) (q k : List ℕ) → IsTrue (is_hit strategy q k) ↔ Hits strategy q k }
{}

/// The list has each strategy once, and the strategy of a strategy's name is that strategy.
#[tactic(auto, using(crate::proofs::StrategyLemmas::each_once, crate::proofs::StrategyLemmas::named_itself))]
pub fn strategy_laws()
    ensures once { AreEachOnce strategies }
    ensures named { (strategy : Strategy) → strategy_named (strategy_name strategy) ≡ Some strategy }
{}
