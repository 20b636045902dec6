//! What the runs of the store share: editions and the commands with them, what a desk shows, disks that fail, and files of older
//! schemas. No part of the product.
#![tactic(auto)]

mod asked;
mod desks;
mod disks;
mod showing;
mod stored;

pub use asked::{Asked, Editions, Source, read_editions, requests, told, told_outcome};
pub use desks::{accept_all, batched};
pub use disks::{Failing, FailsOnce, failing_disk};
pub use showing::{Rows, listed, shown};
pub use stored::{CAPITALS, Older, PARTED, PLAIN, SHARED, SHOWN, older_files};
