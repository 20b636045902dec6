//! Runs of the hub: many connections at once, catalogues that change between two lines, and desks that fail. A library with
//! tests alone.
#![tactic(auto)]

#[cfg(test)]
mod changes;
#[cfg(test)]
mod checks;
#[cfg(test)]
mod commands;
#[cfg(test)]
mod failing;
#[cfg(test)]
mod files;
#[cfg(test)]
mod foreseen;
#[cfg(test)]
mod hub;
#[cfg(test)]
mod runs;
#[cfg(test)]
mod together;
