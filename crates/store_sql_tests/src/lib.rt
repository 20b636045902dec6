//! Which tables are recognised, and runs of the statements over each table, over memory. A library with tests alone.
#![tactic(auto)]

#[cfg(test)]
mod checks;
#[cfg(test)]
mod connections;
#[cfg(test)]
mod definitions;
#[cfg(test)]
mod headers;
#[cfg(test)]
mod inside;
#[cfg(test)]
mod keyed;
#[cfg(test)]
mod old;
#[cfg(test)]
mod older;
#[cfg(test)]
#[cfg(test)]
mod parts;
#[cfg(test)]
mod plain;
#[cfg(test)]
mod rest;
#[cfg(test)]
mod texts;
