// The catalogues in files.
ghost use Rattle.std.specs.Prelude.{◌≡◌, Some, None};

use crate::desks::{make_desk, open_desk, reopen_desk};
use crate::left::Left;
use crate::opener::FileOpener;
use crate::session::{run_session, told_over};
use app_commands::Catalogues;
use app_words::ProgramFault;
use dict_proto::{Sink, Source};
use net_serving::DeskOpener;
use sqlite::FileStore;
use sqlite_disk::Disk;
use store_desk::Desk;

/// The catalogue in a file, by its path. One file is opened, once. What it and its log hold then is whatever the opener says: no clause
/// ties that to the path. Nothing is known of what was done to a file.
///
/// What is left of the file where it is closed, or isn't opened, is held until another is, or this is dropped.
pub struct CatalogueFiles<'r, D: Disk + Drop, O: FileOpener<D>> {
    rt: &'r HostRuntime,
    // What opens the file, until it is opened.
    start: Option<O>,
    // The number that its log got last.
    number: u64,
    // What is left of the file that was closed last, or that wasn't opened.
    left: Option<Left<D>>,
}

// It is written out, so that what owns one doesn't prove again how each part is dropped.
impl<D: Disk + Drop, O: FileOpener<D>> Drop for CatalogueFiles<'_, D, O> {
    fn drop(self) {
        let CatalogueFiles {
            rt: _,
            start: _,
            number: _,
            left: _,
        } = self;
    }
}

impl<'r, D: Disk + Drop, O: FileOpener<D>> CatalogueFiles<'r, D, O> {
    /// Of a file that this opens.
    pub fn new(rt: &'r HostRuntime, opener: O) -> Self
        ensures start { result.start ≡ Some opener }
        ensures left { result.left ≡ None }
    {
        CatalogueFiles {
            rt,
            start: Some(opener),
            number: 0,
            left: None,
        }
    }
}

impl<D: Disk + Drop, O: FileOpener<D>> DeskOpener<Desk<FileStore<D>>> for CatalogueFiles<'_, D, O> {
    ghost use Rattle.dictcat_lib.specs.DeskOpener.{IsDesk, IsNoDeskAt, IsNoDeskAgain};
    ghost use Rattle.dictcat_lib.specs.Files.{IsAloneIn, IsSafe, IsToldUncopied, KeepsWhatWasBeside, StillLeaves};

    ghost history = { λ _. None };

    ghost is_opened = { λ former desk. IsDesk O.image former desk };

    ghost is_unopened = { λ path old new fault. IsNoDeskAt O.image O.refuses path old.start new.start old.left new.left fault };

    ghost is_unreopened = { λ path desk one fault. IsNoDeskAgain path desk one.left fault };

    ghost is_safe = { λ one. IsSafe one.left };

    ghost holds_alone = { λ one M. IsAloneIn one.left M };

    ghost still_leaves = { λ desk one ms. StillLeaves desk one.left ms };

    ghost still_keeps = { λ desk one. KeepsWhatWasBeside desk one.left };

    ghost is_uncopied = { λ desk one fault. IsToldUncopied desk one.left fault };

    fn open<'w>(&mut self, path: &'w str) -> Result<Desk<FileStore<D>>, ProgramFault<'w>> {
        open_desk(
            self.rt,
            path,
            true,
            &mut self.start,
            &mut self.number,
            &mut self.left,
        )
    }

    fn open_for_command<'w>(
        &mut self,
        path: &'w str,
    ) -> Result<Desk<FileStore<D>>, ProgramFault<'w>> {
        open_desk(
            self.rt,
            path,
            false,
            &mut self.start,
            &mut self.number,
            &mut self.left,
        )
    }

    fn reopen<'w>(
        &mut self,
        path: &'w str,
        desk: Desk<FileStore<D>>,
    ) -> Result<Desk<FileStore<D>>, ProgramFault<'w>> {
        reopen_desk(self.rt, path, desk, &mut self.number, &mut self.left)
    }

    fn close(&mut self, desk: Desk<FileStore<D>>) -> Result<(), ProgramFault<'static>> {
        match desk.close() {
            Ok(files) => {
                self.left = Some(Left::Closed(files));
                Ok(())
            }
            Err((store, fault)) => {
                self.left = Some(Left::Uncopied(store));
                Err(ProgramFault::from(fault))
            }
        }
    }
}

impl<D: Disk + Drop, O: FileOpener<D>> Catalogues<Desk<FileStore<D>>> for CatalogueFiles<'_, D, O> {
    ghost use Rattle.sqlite.specs.Files.{over_files};
    ghost use Rattle.dictcat_lib.specs.DeskOpener.{HasSpokenOver, IsMadeDesk, IsUnmade};
    ghost use Rattle.dictcat_lib.specs.Opening.{IsSound, IsUnsound};

    ghost is_made = { λ desk. IsMadeDesk O.image desk };

    ghost is_unmade = { λ path old new fault. IsUnmade O.image O.refuses path old.start new.start old.left new.left fault };

    ghost is_sound = { λ old new. IsSound over_files new };

    ghost is_unsound = { λ old new fault. IsUnsound over_files old new fault };

    ghost has_spoken = { λ path left old new result reader writer. HasSpokenOver O.image O.refuses path left old.start new.start old.left new.left result reader writer };

    fn make<'w>(&mut self, path: &'w str) -> Result<Desk<FileStore<D>>, ProgramFault<'w>> {
        make_desk(
            self.rt,
            path,
            &mut self.start,
            &mut self.number,
            &mut self.left,
        )
    }

    fn audit(&mut self, desk: &mut Desk<FileStore<D>>) -> Result<(), ProgramFault<'static>> {
        match desk.audit() {
            Ok(()) => Ok(()),
            Err(fault) => Err(ProgramFault::from(fault)),
        }
    }

    fn session<'w, S: Source, W: Sink>(
        &mut self,
        path: &'w str,
        reader: &mut S,
        writer: &mut W,
    ) -> Result<(), ProgramFault<'w>> {
        match run_session(
            self.rt,
            path,
            &mut self.start,
            &mut self.number,
            &mut self.left,
            reader,
            writer,
        ) {
            Ok((desk, end)) => {
                let _ = self.close(desk);
                told_over(end)
            }
            Err(fault) => Err(fault),
        }
    }
}
