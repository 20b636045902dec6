// What is looked for in the databases that are asked.

use dict_desk::What;
use dict_match::{Key, Strategy};

/// A query's key with its strategy, and whether the entries found are wanted or their headwords: DEFINE wants the first,
/// MATCH the second.
#[derive(Drop)]
pub(crate) struct Query {
    pub what: What,
    pub strategy: Strategy,
    pub key: Key,
}
