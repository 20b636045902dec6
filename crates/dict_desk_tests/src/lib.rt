//! Editions that are read, plans of commands, and a desk in memory: lookups, commands, and callers of any desk. A library
//! with tests alone.
#![tactic(auto)]

#[cfg(test)]
mod all;
#[cfg(test)]
mod asked;
#[cfg(test)]
mod callers;
#[cfg(test)]
mod checks;
#[cfg(test)]
mod commands;
#[cfg(test)]
mod editions;
#[cfg(test)]
mod files;
#[cfg(test)]
mod lookups;
#[cfg(test)]
mod plans;
#[cfg(test)]
mod rows;
