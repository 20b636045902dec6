//! The reader of records, over the records of a small catalogue, one of them changed at a time.

mod changes;
mod limits;
mod lines;
mod orders;
mod readings;
mod records;
