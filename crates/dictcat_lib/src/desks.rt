// The desk of a file's catalogue.
ghost use Rattle.std.specs.Prelude.{◌≡◌, ◌≢◌, false, List, Option, Some, None, IfOk, IfErr, MatchResult};
ghost use Rattle.sqlite.specs.Files.{over_files};
ghost use Rattle.dict_catalogue.specs.Steps.{Catalogue};
ghost use Rattle.store_desk.specs.Desk.{KeepsBeside, Shows, LeavesOneOf, is_closed};
ghost use Rattle.store_desk.specs.Reopened.{IsReopened};
ghost use Rattle.net_serving.specs.Serving.{Follows, IsNew, IsNone};
ghost use Rattle.app_commands.specs.Catalogues.{IsMadeEmpty};
ghost use Rattle.dictcat_lib.specs.DeskOpener.{IsDesk, IsMadeDesk, IsNoDeskAt, IsNoDeskAgain, IsTrusted, IsUnmade};
ghost use Rattle.dictcat_lib.specs.Files.{KeepsWhatWasBeside, StillLeaves};

use crate::cached::{next_number, options};
use crate::left::{Left, hold};
use crate::opener::FileOpener;
use crate::stores::{close_file, open_file, told_unopened};
use app_words::ProgramFault;
use sqlite::FileStore;
use sqlite_disk::Disk;
use store_desk::Desk;

// The desk of an empty catalogue that is made in the file with this path. Where none is made, `held` is what is left of the file.
pub(crate) fn make_desk<'w, D: Disk + Drop, O: FileOpener<D>>(
    rt: &HostRuntime,
    file: &'w str,
    start: &mut Option<O>,
    number: &mut u64,
    held: &mut Option<Left<D>>,
) -> Result<Desk<FileStore<D>>, ProgramFault<'w>>
    ensures { MatchResult result
        (IsMadeEmpty (Shows over_files) (LeavesOneOf over_files) (IsMadeDesk O.image))
        (IsUnmade O.image O.refuses file.entry.now start.old start.new held.old held.new) }
{
    let conn = open_file(rt, file, true, start, number, held)?;
    match Desk::create(rt.alloc(), conn) {
        Ok(desk) => Ok(desk),
        Err((conn, fault)) => {
            hold(held, close_file(conn));
            Err(ProgramFault::from(fault))
        }
    }
}

// The desk of the catalogue in the file with this path, `indexed` for lookups, or not. Where there is none, `held` is what is left of the file.
pub(crate) fn open_desk<'w, D: Disk + Drop, O: FileOpener<D>>(
    rt: &HostRuntime,
    file: &'w str,
    indexed: bool,
    start: &mut Option<O>,
    number: &mut u64,
    held: &mut Option<Left<D>>,
) -> Result<Desk<FileStore<D>>, ProgramFault<'w>>
    ensures opened { MatchResult result
        (IsNew (Shows over_files) (LeavesOneOf over_files) IsTrusted (IsDesk O.image None))
        (IsNone (IsNoDeskAt O.image O.refuses file.entry.now start.old start.new held.old held.new)) }
    ensures answers { IfOk result (λ desk. is_closed desk.last ≡ false) }
{
    let conn = open_file(rt, file, false, start, number, held)?;
    match Desk::adopt(rt.alloc(), conn, indexed) {
        Ok(desk) => Ok(desk),
        Err((conn, fault)) => {
            hold(held, close_file(conn));
            Err(ProgramFault::from(fault))
        }
    }
}

// The desk of the same files, which are opened again, with a further number for their log, after this one's store failed. Where there is none,
// `held` is what is left of them.
pub(crate) fn reopen_desk<'w, D: Disk + Drop>(
    rt: &HostRuntime,
    file: &'w str,
    desk: Desk<FileStore<D>>,
    number: &mut u64,
    held: &mut Option<Left<D>>,
) -> Result<Desk<FileStore<D>>, ProgramFault<'w>>
    ensures opened { MatchResult result
        (IsNew (Shows over_files) (LeavesOneOf over_files) IsTrusted (IsReopened desk))
        (IsNone (IsNoDeskAgain file.entry.now desk held.new)) }
    ensures answers { IfOk result (λ desk. is_closed desk.last ≡ false) }
    ensures follows { IfOk result (Follows (Shows over_files) (LeavesOneOf over_files) (KeepsBeside over_files) IsTrusted desk) }
    ensures number { number.new ≢ number.old }
    ensures leaves { IfErr result (λ _. (ms : List (Option Catalogue)) → LeavesOneOf over_files desk ms → StillLeaves desk held.new ms) }
    ensures beside { IfErr result (λ _. KeepsWhatWasBeside desk held.new) }
{
    *number = next_number(*number);
    match desk.reopen(options(rt, file, *number)) {
        Ok(desk) => Ok(desk),
        Err((left, fault)) => {
            let told = told_unopened(file, &left, fault);
            hold(held, Left::Unopened(left));
            Err(told)
        }
    }
}
