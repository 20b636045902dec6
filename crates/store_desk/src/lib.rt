//! A desk over one file: what readers ask of its catalogue, and what editors change; and a session over it.
#![tactic(auto)]

mod adopting;
mod closing;
mod coming;
mod copying;
mod desk;
mod finding;
mod finishing;
mod indexing;
mod keeper;
mod kept;
mod last;
mod laws;
mod lookups;
mod making;
mod orphans;
mod preparing;
mod promise;
mod reopening;
mod session;
mod tidying;
mod withdrawing;

pub use desk::Desk;
pub use last::LastCall;
pub use laws::committed_may_stay;
pub use promise::apply_to_file;
pub use reopening::{Unopened, fault_of_files, files_without_sums, stopped_files};
pub use session::session_over;
