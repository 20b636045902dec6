//! The strategies of MATCH (RFC 2229, section 3.3) that this project knows.

ghost use Rattle.std.specs.Prelude.{◌≡◌, ◌↔◌};

/// How a query's key is held against an entry's.
#[derive(Clone, Copy, Debug, PartialEq, Eq)]
pub enum Strategy {
    /// The keys are equal.
    Exact,
    /// The entry's key begins with the query's.
    Prefix,
    /// The entry's key ends with the query's.
    Suffix,
    /// The query's key stands in the entry's, as bytes.
    Substring,
    /// The words of the query's key are a run among those of the entry's.
    Word,
    /// The words of the query's key are the first words of the entry's.
    First,
    /// The words of the query's key are the last words of the entry's.
    Last,
}

impl Strategy {
    ghost use Rattle.dict_match.specs.StrategyText.{strategy_name, strategy_title, strategy_text, strategy_named};

    /// All strategies, in the order in which SHOW STRAT lists them.
    pub const ALL: [Strategy; 7] = [
        Strategy::Exact,
        Strategy::Prefix,
        Strategy::Suffix,
        Strategy::Substring,
        Strategy::Word,
        Strategy::First,
        Strategy::Last,
    ];

    // What clients see of the strategy: its name, and the description that SHOW STRAT gives of it.
    fn text(self) -> (&'static str, &'static str)
        ensures name { result.0.now ≡ (strategy_text self).name }
        ensures title { result.1.now ≡ (strategy_text self).title }
    {
        match self {
            Strategy::Exact => ("exact", "Equal keys"),
            Strategy::Prefix => ("prefix", "Key begins with the query"),
            Strategy::Suffix => ("suffix", "Key ends with the query"),
            Strategy::Substring => ("substring", "Key contains the query"),
            Strategy::Word => ("word", "Words of the query stand together in the key"),
            Strategy::First => ("first", "Key begins with the words of the query"),
            Strategy::Last => ("last", "Key ends with the words of the query"),
        }
    }

    /// The strategy of this name, compared byte for byte. The server's own choice, `.`, is no name here.
    pub fn by_name(name: &str) -> Option<Strategy>
        ensures named { result ≡ strategy_named name.now }
        ensures only { (strategy : Strategy) → (result ≡ Some strategy) ↔ (name.now ≡ strategy_name strategy) }
    {
        for strategy in Strategy::ALL {
            if strategy.name() == name {
                return Some(strategy);
            }
        }
        None
    }

    /// The strategy's name.
    #[tactic(auto, unfolding(crate::specs::StrategyText::strategy_name))]
    pub fn name(self) -> &'static str
        ensures { result.now ≡ strategy_name self }
    {
        self.text().0
    }

    /// The description that SHOW STRAT gives of the strategy.
    #[tactic(auto, unfolding(crate::specs::StrategyText::strategy_title))]
    pub fn title(self) -> &'static str
        ensures { result.now ≡ strategy_title self }
    {
        self.text().1
    }
}
