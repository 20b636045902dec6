//! How a query finds a headword: the keys of both, their words, and the strategies by which keys are held together.
#![tactic(auto)]

mod joined;
mod key;
mod laws;
mod matching;
mod strategy;
mod word;

pub use key::{Key, key_of, reserved_key_of};
pub use laws::{
    hit_laws, key_laws, scalar_law, strategy_laws, version_laws, word_laws, worked_ascii_keys,
    worked_keys,
};
pub use matching::matches;
pub use strategy::Strategy;
pub use word::{WordIterator, words};
