// The laws of the words of a line, and worked lines.
ghost use Rattle.std.specs.Prelude.{◌≡◌, ℕ, List, [], ◌∷◌, Some, None, codes};
ghost use Rattle.dict_proto.specs.Words.{AreWords};
ghost use Rattle.dict_proto.specs.LineWords.{line_words};
ghost use Rattle.dict_proto.specs.Meaning.{meaning, define, matching, show_server, show_info, client, quit, not_recognized, illegal_parameters, not_implemented};

/// A law of lines of characters: each line can be cut into words in at most one way; where it can, `line_words`
/// computes those words, and what it computes are the line's words.
pub fn one_reading()
    ensures computed { (line : List ℕ) (words : List (List ℕ)) → AreWords line words
        → line_words line ≡ Some words }
    ensures found { (line : List ℕ) (words : List (List ℕ)) → line_words line ≡ Some words → AreWords line words }
    ensures only { (line : List ℕ) (words others : List (List ℕ)) → AreWords line words
        → AreWords line others → words ≡ others }
{}

/// Worked lines: both kinds of string, parts that touch, quoted pairs, the empty word, and lines that can't be cut.
pub fn worked_lines()
    ensures strings { line_words (codes "define \"gem\" 'fire  op'al")
        ≡ Some (codes "define" ∷ codes "gem" ∷ codes "fire  opal" ∷ []) }
    ensures pairs { line_words (codes "a\\ b\t\\\" \"\\\"\\x'\"") ≡ Some (codes "a b" ∷ codes "\"" ∷ codes "\"x'" ∷ []) }
    ensures empty_word { line_words (codes "x \"\" ") ≡ Some (codes "x" ∷ [] ∷ []) }
    ensures no_word { line_words (codes " \t ") ≡ Some [] }
    ensures open_string { line_words (codes "DEFINE gem \"opal") ≡ None }
    ensures other_sign { line_words (codes "DEFINE gem 'opal\"") ≡ None }
    ensures last_backslash { line_words (codes "opal\\") ≡ None }
    ensures tab_in_string { line_words (codes "\"a\tb\"") ≡ None }
    ensures tab_after_backslash { line_words (codes "a\\\tb") ≡ None }
{}

/// What worked lines mean: quoting of each kind, case, parameters that are too few, too many or unknown, and commands
/// that are left out.
pub fn worked_meanings()
    ensures parts { meaning (codes "DEFINE gem o\"pa\"'l'") ≡ define (codes "gem") (codes "opal") }
    ensures pair { meaning (codes "DEFINE gem \\opal") ≡ define (codes "gem") (codes "opal") }
    ensures three { meaning (codes "match * . 'fire opal'") ≡ matching (codes "*") (codes ".") (codes "fire opal") }
    ensures touching { meaning (codes "DEFINE gem\"opal\"") ≡ illegal_parameters }
    ensures last_backslash { meaning (codes "DEFINE gem opal\\") ≡ illegal_parameters }
    ensures open_string { meaning (codes "nothing \"a") ≡ illegal_parameters }
    ensures tab_in_string { meaning (codes "DEFINE gem \"a\tb\"") ≡ illegal_parameters }
    ensures show { meaning (codes "show  server") ≡ show_server }
    ensures info { meaning (codes "SHOW INFO gem") ≡ show_info (codes "gem") }
    ensures unknown_show { meaning (codes "SHOW X") ≡ illegal_parameters }
    ensures no_show { meaning (codes "SHOW") ≡ illegal_parameters }
    ensures no_words { meaning (codes "CLIENT") ≡ client }
    ensures quoted_command { meaning (codes "qu'IT'") ≡ quit }
    ensures more { meaning (codes "QUIT x") ≡ illegal_parameters }
    ensures left_out { meaning (codes "option mime") ≡ not_implemented }
    ensures unknown { meaning (codes "SASLRESP x") ≡ not_recognized }
    ensures empty_line { meaning [] ≡ not_recognized }
    ensures empty_word { meaning (codes "\"\"") ≡ not_recognized }
{}
