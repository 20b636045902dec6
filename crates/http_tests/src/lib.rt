//! Runs of the editors' requests: over a desk in memory, whose answers are compared octet for octet, and over desks that
//! fail. A library with tests alone.
#![tactic(auto)]

#[cfg(test)]
mod answers;
#[cfg(test)]
mod bodies;
#[cfg(test)]
mod checks;
#[cfg(test)]
mod curl;
#[cfg(test)]
mod failing;
#[cfg(test)]
mod heads;
#[cfg(test)]
mod routes;
#[cfg(test)]
mod statuses;
#[cfg(test)]
mod table;
