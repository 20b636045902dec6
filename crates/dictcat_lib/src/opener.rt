// What has the two files at a path.
ghost use Rattle.std.specs.Prelude.{ℕ, Bool, List, IsTrue, IfOk, IfErr};
ghost use Rattle.dict_desk.specs.declared.fault.Fault.{Fault as DeskFault};
ghost use Rattle.sqlite.specs.Recovery.{Image};
ghost use Rattle.sqlite.specs.WalFiles.{image_at};
ghost use Rattle.store_desk.specs.Unopened.{HaveOctets};

use crate::cached::{log_number, octets_at, open_pair};
use dict_desk::Fault;
use sqlite::{FileFrom, Files, Start};
use sqlite_disk::Disk;
use std::alloc::AllocError;
use std::fs;
use std::io::ErrorKind;
use store_desk::fault_of_files;

/// Has the two files at a path. What stands over them is proved of any disk, since that of the machine is dear to compare.
pub trait FileOpener<D: Disk + Drop>: Drop {
    /// The octets that the two files hold as they are opened.
    ghost image: { Image };

    /// The files at this path can't be had, for this fault: where the database has to be there; or, with `true`, where it may be made.
    ghost refuses: { List ℕ → Bool → DeskFault → Type 0 };

    /// The two files at this path, and a number for their log: where the database has to be there, or may be `made`. What they hold is as it
    /// was.
    fn files(self, rt: &HostRuntime, path: &str, made: bool) -> Result<(Files<D>, u64), Fault>
        ensures octets { IfOk result (λ had. HaveOctets D.Disk image had.0) }
        ensures log { IfOk result (λ had. IsTrue (D.Disk.is_usable had.0.log)) }
        ensures db { IfOk result (λ had. IsTrue (D.Disk.is_usable had.0.db)) }
        ensures refused { IfErr result (refuses path.now made) };

    /// A stop may leave what is seen of a file.
    ghost stays: { (file : D) → D.may_leave file (D.seen file) };
}

// A log of fewer octets has no page.
const PAGE: u64 = 4_096;

// Whether pages of a catalogue may stand in the log of a file that isn't there, or is empty: the log would be dropped where that is opened. No
// proof rests on it. The only error is refused memory.
fn is_log_alone(rt: &HostRuntime, path: &str) -> Result<bool, AllocError> {
    if octets_at(rt, path) > 0 {
        return Ok(false);
    }
    let mut log = String::new(rt.alloc());
    log.push_str(path)?;
    log.push_str("-wal")?;
    Ok(octets_at(rt, &log) >= PAGE)
}

// Whether a file is at this path. The only error is refused memory.
fn is_there(rt: &HostRuntime, path: &str) -> Result<bool, AllocError> {
    match fs::exists(rt, path) {
        Ok(there) => Ok(there),
        Err(fault) if fault.kind() == ErrorKind::OutOfMemory => Err(AllocError),
        Err(_) => Ok(false),
    }
}

/// The files of the machine. Nothing is known of which can be had. Over none, and over an empty one, none is made beside a log that may have pages.
#[derive(Drop)]
pub struct SystemFiles<S: Start> {
    /// Stands for the octets that they hold.
    pub start: S,
}

impl<S: Start> FileOpener<FileFrom<S>> for SystemFiles<S> {
    ghost use Rattle.std.proofs.Common.{inl, refl};
    ghost use Rattle.std.specs.Prelude.{⊤};

    ghost image = { image_at S.Start };

    ghost stays = { λ file. inl refl };

    ghost refuses = { λ _ _ _. ⊤ };

    fn files(
        self,
        rt: &HostRuntime,
        path: &str,
        made: bool,
    ) -> Result<(Files<FileFrom<S>>, u64), Fault> {
        let (Ok(there), Ok(alone)) = (is_there(rt, path), is_log_alone(rt, path)) else {
            return Err(Fault::Memory);
        };
        if alone || !(there || made) {
            return Err(Fault::NotACatalogue);
        }
        let Some(number) = log_number(rt) else {
            return Err(Fault::NotACatalogue);
        };
        match open_pair(rt, path, self.start) {
            Ok(files) => Ok((files, number)),
            Err(error) => {
                let fault = fault_of_files(&error);
                drop(error);
                Err(fault)
            }
        }
    }
}
