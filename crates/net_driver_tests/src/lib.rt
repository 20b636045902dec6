//! Single turns of a connection to a peer in memory, and runs of a driver: over such peers, and over loopback, both ends in one
//! thread. A library with tests alone.
#![tactic(auto)]

#[cfg(test)]
mod addresses;
#[cfg(test)]
mod checks;
#[cfg(test)]
mod client;
#[cfg(test)]
mod crowd;
#[cfg(test)]
mod crowds;
#[cfg(test)]
mod ends;
#[cfg(test)]
mod holding;
#[cfg(test)]
mod limits;
#[cfg(test)]
mod lines;
#[cfg(test)]
mod long;
#[cfg(test)]
mod newcomers;
#[cfg(test)]
mod peer;
#[cfg(test)]
mod preparing;
#[cfg(test)]
mod queue;
#[cfg(test)]
mod serving;
#[cfg(test)]
mod talks;
#[cfg(test)]
mod turns;
