//! Pieces of texts, words and runs of three octets, with the places in which they stand; what a query finds among them.
#![tactic(auto)]

mod common;
mod grams;
mod keeping;
mod listing;
mod pieces;
mod placed;
mod wording;

pub use common::common_places;
pub use keeping::{keep_hits, keep_with_gram};
pub use listing::{ComparedRuns, GroupedRuns, Listing, TakenRuns, is_listed, list_more};
pub use pieces::{Pieces, grams_of, words_of};
pub use placed::PlacedGram;
pub use wording::{GroupedWords, SortedWords, TakenWords, Wording, is_worded, word_more};
