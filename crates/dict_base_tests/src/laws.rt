//! The laws are called. What their clauses say is proved.

use dict_match::{
    hit_laws, key_laws, scalar_law, strategy_laws, version_laws, word_laws, worked_ascii_keys,
    worked_keys,
};
use store_derived::{range_law, search_laws};
use store_rows::{
    empty_records, one_catalogue, ordered_records, records_after, records_by_number,
    taken_in_order, worked_records,
};

#[test]
fn are_called() {
    hit_laws();
    strategy_laws();
    worked_ascii_keys();
    worked_keys();
    key_laws();
    version_laws();
    scalar_law();
    word_laws();
    range_law();
    search_laws();
    one_catalogue();
    ordered_records();
    records_by_number();
    taken_in_order();
    records_after();
    empty_records();
    worked_records();
}
