//! Runs of the store over disks that stop or fail, and of what opens its files again. A library with tests alone.
#![tactic(auto)]

#[cfg(test)]
mod anew;
#[cfg(test)]
mod checks;
#[cfg(test)]
mod clients;
#[cfg(test)]
mod disks;
#[cfg(test)]
mod files;
#[cfg(test)]
mod prepared;
#[cfg(test)]
mod printed;
#[cfg(test)]
mod reopened;
#[cfg(test)]
mod reopening;
#[cfg(test)]
mod serving_checks;
#[cfg(test)]
mod stops;
