//! Tries what the program does with words, over files, and its servers.
#![tactic(auto)]

#[cfg(test)]
mod catalogues;
#[cfg(test)]
mod checks;
#[cfg(test)]
mod fixtures;
#[cfg(test)]
mod paths;
#[cfg(test)]
mod rows;
#[cfg(test)]
mod serving;
#[cfg(test)]
mod tests;
#[cfg(test)]
mod usage;
