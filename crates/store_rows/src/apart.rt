// Whether of what comes in order any comes twice.
ghost use Rattle.std.specs.Prelude.{◌≡◌, ◌↔◌, ◌++◌, ◌∷◌, [], ℕ, ℤ, List, Some, IsTrue, IfErr, OnOk, OnErr, option_map, string_bytes};
ghost use Rattle.dict_catalogue.specs.WellFormed.{IsEachOnce};
ghost use Rattle.store_rows.specs.Order.{InOrder};

use crate::fault::RowsFault;

/// The ids of kept replies, which come in the order of ids. It holds the last one.
#[derive(Drop)]
pub struct IdReader {
    pub(crate) last: Option<String>,
}

fn is_last(last: &Option<String>, id: &str) -> bool
    ensures { IsTrue result ↔ (option_map string_bytes last.now ≡ Some id.now) }
{
    match last {
        Some(last) => last.as_str() == id,
        None => false,
    }
}

impl IdReader {
    ghost use Rattle.store_rows.specs.Apart.{HasTakenIds};

    /// No id was taken yet. No memory is taken.
    pub fn new() -> IdReader
        ensures { HasTakenIds result [] }
    {
        IdReader { last: None }
    }

    /// Takes the next id. `Damaged`, the only fault, tells that it came twice.
    pub fn id(&mut self, id: String) -> Result<(), RowsFault>
        ensures taken { OnOk result ((taken : List (List ℕ)) → HasTakenIds self.old taken → HasTakenIds self.new (taken ++ string_bytes id ∷ [])) }
        ensures damaged { OnErr result ((taken : List (List ℕ)) → HasTakenIds self.old taken → IsEachOnce (taken ++ string_bytes id ∷ []) → ⊥) }
        ensures only { IfErr result (λ fault. fault ≡ RowsFault.Damaged) }
    {
        if is_last(&self.last, id.as_str()) {
            return Err(RowsFault::Damaged);
        }
        self.last = Some(id);
        Ok(())
    }
}

/// The rowids of a table, which come in their order. It holds the last one.
#[derive(Drop)]
pub struct RowidReader {
    pub(crate) last: Option<i64>,
}

fn is_last_rowid(last: &Option<i64>, rowid: i64) -> bool
    ensures { IsTrue result ↔ (last.now ≡ Some rowid) }
{
    match last {
        Some(last) => *last == rowid,
        None => false,
    }
}

impl RowidReader {
    ghost use Rattle.store_rows.specs.Apart.{HasTakenRowids};

    /// No rowid was taken yet.
    pub fn new() -> RowidReader
        ensures { HasTakenRowids result [] }
    {
        RowidReader { last: None }
    }

    /// Takes the next rowid. `Damaged`, the only fault, tells that it came twice.
    pub fn rowid(&mut self, rowid: i64) -> Result<(), RowsFault>
        ensures taken { OnOk result ((taken : List ℤ) → HasTakenRowids self.old taken → HasTakenRowids self.new (taken ++ rowid ∷ [])) }
        ensures damaged { OnErr result ((taken : List ℤ) → HasTakenRowids self.old taken → InOrder (λ a b. a ≡ b → ⊥) (taken ++ rowid ∷ []) → ⊥) }
        ensures only { IfErr result (λ fault. fault ≡ RowsFault.Damaged) }
    {
        if is_last_rowid(&self.last, rowid) {
            return Err(RowsFault::Damaged);
        }
        self.last = Some(rowid);
        Ok(())
    }
}
