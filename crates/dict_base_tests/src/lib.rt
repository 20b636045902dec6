//! Runs of the libraries that the others stand on: characters, names, numbers, streams, keys and strategies, what is derived of headwords,
//! stored lines and parts, slices of an edition, and the reader of records. A library with tests alone.
#![tactic(auto)]

#[cfg(test)]
mod b64;
#[cfg(test)]
mod checks;
#[cfg(test)]
mod derived;
#[cfg(test)]
mod index_lines;
#[cfg(test)]
mod io;
#[cfg(test)]
mod laws;
#[cfg(test)]
mod matching;
#[cfg(test)]
mod name;
#[cfg(test)]
mod parts;
#[cfg(test)]
mod reading;
#[cfg(test)]
mod rows;
#[cfg(test)]
mod text;
