//! Runs of an index in memory, beside the filter of the whole list, and of indexes under numbers. A library with tests alone.
#![tactic(auto)]

#[cfg(test)]
mod checks;
#[cfg(test)]
mod filter;
#[cfg(test)]
mod indexes;
#[cfg(test)]
mod kept_parts;
#[cfg(test)]
mod made;
