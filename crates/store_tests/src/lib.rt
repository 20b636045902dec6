//! Runs of the store over memory: commands, lookups, sessions, migrations, files that are refused, installs that are prepared part by part. A library with tests alone.
#![tactic(auto)]

#[cfg(test)]
mod borders;
#[cfg(test)]
mod checks;
#[cfg(test)]
mod commands;
#[cfg(test)]
mod full;
#[cfg(test)]
mod kept_texts;
#[cfg(test)]
mod looked_at;
#[cfg(test)]
mod looking;
#[cfg(test)]
mod many;
#[cfg(test)]
mod migrations;
#[cfg(test)]
mod preparing;
#[cfg(test)]
mod referred;
#[cfg(test)]
mod refused;
#[cfg(test)]
mod spoken;
#[cfg(test)]
mod steps;
#[cfg(test)]
mod tables;
#[cfg(test)]
mod taken;
