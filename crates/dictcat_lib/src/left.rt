// What is left of a file that is no longer served.
ghost use Rattle.std.specs.Prelude.{◌≡◌, Some};

use sqlite::{FileStore, Files};
use sqlite_disk::Disk;
use std::mem;
use store_desk::Unopened;

/// What is left of the connection that was closed last, or of the desk whose file wasn't opened again.
pub(crate) enum Left<D: Disk + Drop> {
    /// The two files. The log was copied.
    Closed(Files<D>),
    /// The store. The log wasn't copied.
    Uncopied(FileStore<D>),
    /// What was handed back of the two files, over which no desk was opened.
    Unopened(Unopened<D>),
}

// It is written out, so that what owns one doesn't prove again how each part is dropped.
impl<D: Disk + Drop> Drop for Left<D> {
    fn drop(self) {
        match self {
            Left::Closed(_) => {}
            Left::Uncopied(_) => {}
            Left::Unopened(_) => {}
        }
    }
}

// Holds what is left of a file in place of what was held.
pub(crate) fn hold<D: Disk + Drop>(held: &mut Option<Left<D>>, left: Left<D>)
    ensures { held.new ≡ Some left }
{
    drop(mem::replace(held, Some(left)));
}
