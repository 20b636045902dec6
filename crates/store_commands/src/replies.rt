// The reply that is kept under an id.
ghost use Rattle.std.specs.Prelude.{◌≡◌, ◌≢◌, ℕ, List, Option, false, pos, IfErr, IfOk, IfSome, IfNone, OnErr, OnOk, option_map, string_bytes};
ghost use Rattle.sqlite.specs.State.{HasCleanDisk, IsUnchanged, Survives};
ghost use Rattle.sqlite.specs.Held.{state};
ghost use Rattle.store_tables.specs.Tables.{kept as kept_table};
ghost use Rattle.store_tables.specs.Effects.{Has, WhileOpen};
ghost use Rattle.store_tables.specs.Typed.{owned_kept};
ghost use Rattle.dict_catalogue.specs.Steps.{Catalogue, KeptFor, kept_under};
ghost use Rattle.dict_catalogue.specs.Views.{kept_shown};
ghost use Rattle.dict_catalogue.specs.declared.reply.Verb.{Verb as AVerb};
ghost use Rattle.store_rows.specs.Written.{kept_record, verb_name};
ghost use Rattle.store_holdings.specs.Faults.{fault_of_read};
ghost use Rattle.store_holdings.specs.Faults.{FailsToReadCatalogue};
ghost use Rattle.store_holdings.specs.Holds.{Holds};
ghost use Rattle.store_commands.specs.KeptRecords.{HoldsReplies};
ghost use Rattle.store_commands.specs.Committed.{IsOfStore, StaysCommitted};

use dict_catalogue::{Kept, Verb};
use dict_desk::Fault;
use sqlite::{Alter, Connection};
use std::alloc::{AllocError, Global};
use store_holdings::fault_of_read;
use store_rows::{number_in, verb_in};
use store_sql::read::kept_replies_of;
use store_sql::records::ReadError;
use store_tables::KeptRecord as KeptRow;

// The number that stands in a column, if one does.
fn number_if(found: &Option<i64>) -> Option<Option<u64>>
    ensures told { IfSome result (λ number. found.now ≡ option_map pos number) }
    ensures none { IfNone result ((number : Option ℕ) → found.now ≢ option_map pos number) }
{
    match found {
        Some(found) => Some(Some(number_in(found)?)),
        None => Some(None),
    }
}

// The parts of a reply but its name, if the record is one of a reply.
fn parts_of(row: &KeptRow<String>) -> Option<(u64, Verb, Option<u64>)>
    ensures told { IfSome result (λ parts. (row.now.number ≡ pos parts.0) × (string_bytes row.now.verb ≡ verb_name parts.1) × (row.now.edition ≡ option_map pos parts.2)) }
    ensures none { IfNone result ((number : ℕ) (verb : AVerb) (edition : Option ℕ) → row.now.number ≡ pos number → string_bytes row.now.verb ≡ verb_name verb → row.now.edition ≡ option_map pos edition → ⊥) }
{
    let verb = verb_in(row.verb.as_str())?;
    let number = number_in(&row.number)?;
    let edition = number_if(&row.edition)?;
    Some((number, verb, edition))
}

// The reply that the record keeps, if it is one of a reply.
fn reply_of(alloc: Global, row: &KeptRow<String>) -> Result<Option<Kept>, AllocError>
    ensures told { IfOk result (λ found. IfSome found (λ reply. owned_kept row.now ≡ kept_record (record { id = string_bytes row.now.id; reply = kept_shown reply }))) }
    ensures none { IfOk result (λ found. IfNone found ((one : KeptFor) → owned_kept row.now ≢ kept_record one)) }
{
    let Some((number, verb, edition)) = parts_of(row) else {
        return Ok(None);
    };
    let name = String::from_str(alloc, row.name.as_str())?;
    Ok(Some(Kept {
        number,
        verb,
        name,
        edition,
    }))
}

/// The reply that is kept under the id, if there is one, by the rows of the kept replies alone. Nothing is written.
///
/// `Memory` tells that a growth was refused. `Disk` tells that the store failed, or that the limit on steps was met; or that
/// a record is none of a reply, which it never is in a database that holds a catalogue.
pub fn kept_reply<S: Alter>(
    alloc: Global,
    conn: &mut Connection<S>,
    id: &str,
) -> Result<Option<Kept>, Fault>
    requires { WhileOpen (state S.Store conn.old) (Has kept_table) }
    ensures alone { HasCleanDisk (state S.Store conn.new) → IfOk result (λ reply. (kept : List KeptFor) → HoldsReplies (state S.Store conn.old).now kept → option_map kept_shown reply ≡ kept_under kept id.now) }
    ensures value { HasCleanDisk (state S.Store conn.new) → IfOk result (λ reply. (version : _) (M : Catalogue) → Holds version (state S.Store conn.old).now M → option_map kept_shown reply ≡ kept_under M.kept id.now) }
    ensures same { HasCleanDisk (state S.Store conn.new) → OnOk result (IsUnchanged (state S.Store conn.old) (state S.Store conn.new)) }
    ensures failed { HasCleanDisk (state S.Store conn.new) → IfErr result (FailsToReadCatalogue (state S.Store conn.old) (state S.Store conn.new)) }
    ensures stays { HasCleanDisk (state S.Store conn.new) → OnErr result (StaysCommitted (state S.Store conn.old) (state S.Store conn.new)) }
    ensures kinds { IfErr result IsOfStore }
    ensures mode { conn.old.in_transaction ≡ false → conn.new.in_transaction ≡ false }
    ensures survives { Survives (state S.Store conn.old) (state S.Store conn.new) (λ _. ⊥) }
{
    let rows = match kept_replies_of(alloc, conn, id) {
        Ok(rows) => rows,
        Err(error) => return Err(fault_of_read(error)),
    };
    let Some(row) = rows.first() else {
        return Ok(None);
    };
    match reply_of(alloc, &row.value)? {
        Some(reply) => Ok(Some(reply)),
        None => Err(Fault::Disk),
    }
}
