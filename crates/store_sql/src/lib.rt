//! The statements that put rows in, take them out and read them, and the tables of editions: their headers, and the parts of their files.
#![tactic(auto)]

pub mod delete;
pub mod header_found;
pub mod header_laws;
pub mod header_one;
pub mod header_records;
pub mod header_scan;
pub mod header_statements;
pub mod infos;
pub mod insert;
pub mod keyed;
pub mod laws;
pub mod part_found;
pub mod part_laws;
pub mod part_one;
pub mod part_records;
pub mod part_scan;
pub mod part_statements;
pub mod read;
pub mod records;
pub mod stream;
