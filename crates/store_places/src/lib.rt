//! Places of texts in the order of the texts.
#![tactic(auto)]

mod heads;
mod merging;
mod order;
mod reversed;
mod sorting;

pub use heads::{heads_of, likely_places, sampled_heads};
pub use merging::{Compares, Merging};
pub use order::{first_places, places_between, reversed_texts, sorted_places};
pub use reversed::places_between_reversed;
pub use sorting::{ComparedPlaces, Places, Sorting, are_made, place_more, place_next, turn_more};
