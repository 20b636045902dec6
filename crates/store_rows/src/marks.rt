// The record of the mark, and the owners of the members.
ghost use Rattle.std.specs.Prelude.{◌≡◌, ◌≢◌, ◌≤◌, ℕ, [], ◌∷◌, IfOk, IfErr, map};
ghost use Rattle.std.specs.List.{list_all};
ghost use Rattle.dict_catalogue.specs.Items.{is_known};
ghost use Rattle.dict_catalogue.specs.Views.{item_shown};
ghost use Rattle.store_tables.specs.Typed.{owned_mark};
ghost use Rattle.store_rows.specs.Written.{mark_record};
ghost use Rattle.store_rows.specs.Given.{marks_given, members_given, OnDamage};

use crate::fault::RowsFault;
use crate::items::{is_number, number_of};
use dict_catalogue::{Item, is_known};
use store_tables::{Mark, Member, StoredRow};

/// The count of installs that a mark of this schema tells.
fn installs_in(version: u64, mark: &Mark<String>) -> Result<u64, RowsFault>
    ensures most { IfOk result (λ installs. installs ≤ 9223372036854775807) }
    ensures told { IfOk result (λ installs. owned_mark mark.now ≡ mark_record version installs) }
    ensures damaged { IfErr result (λ fault. OnDamage fault ((installs : ℕ) → owned_mark mark.now ≢ mark_record version installs)) }
{
    if !is_number(1, &mark.id) || !is_number(version, &mark.version) {
        return Err(RowsFault::Damaged);
    }
    if mark.magic.as_str() != "dictcat" {
        return Err(RowsFault::Damaged);
    }
    number_of(&mark.installs)
}

/// The count of installs that the one mark of a file of this schema tells.
pub(crate) fn installs_of(version: u64, marks: &[StoredRow<Mark<String>>]) -> Result<u64, RowsFault>
    ensures most { IfOk result (λ installs. installs ≤ 9223372036854775807) }
    ensures told { IfOk result (λ installs. marks_given marks.now ≡ mark_record version installs ∷ []) }
    ensures damaged { IfErr result (λ fault. OnDamage fault ((installs : ℕ) → marks_given marks.now ≢ mark_record version installs ∷ [])) }
{
    if marks.len() != 1 {
        return Err(RowsFault::Damaged);
    }
    installs_in(version, &marks[0].value)
}

/// Whether each member's owner is one of the items.
pub(crate) fn are_owned(items: &[Item], members: &[StoredRow<Member<String>>]) -> bool
    ensures { result ≡ list_all (λ row. is_known (map item_shown items.now) row.owner) (members_given members.now) }
{
    for member in members {
        if !is_known(items, member.value.owner.as_str()) {
            return false;
        }
    }
    true
}
