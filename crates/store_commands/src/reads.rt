// An install that may come, of whose edition all is read.
ghost use Rattle.std.specs.Prelude.{◌↔◌, IfSome, IsTrue};
ghost use Rattle.dict_index.specs.Meaning.{IsReadEdition};
ghost use Rattle.dict_catalogue.specs.Views.{summary_shown};
ghost use Rattle.dict_reading.specs.Reading.{HasRead, IsAtEnd};
ghost use Rattle.store_commands.specs.Changes.{IsInRange, IsWritable};
ghost use Rattle.store_commands.specs.Filing.{HasNoneFiled};
ghost use Rattle.store_commands.specs.Installs.{IsInstallOf, IsReadInstall};

use crate::draft::Draft;
use crate::filing::Filing;
use crate::install::{InstallFiles, Progress, is_same};
use crate::titled::decide_install;
use dict_catalogue::{PlannedChange, Summary};
use dict_reading::{EditionReader, Reading};
use std::alloc::Global;

/// An install that may come, of whose edition all is read: its name, its index as it came, and what is filed of the edition, which has the
/// text as it came, and the index as it is stored.
#[derive(Drop)]
pub struct ReadInstall {
    pub filing: Filing,
    pub(crate) name: String,
    pub(crate) came: Vec<u8>,
    pub(crate) reader: EditionReader,
}

// What the install of files does that are read whole, if they say an edition and the summary doesn't refuse it.
fn decide_read(
    alloc: Global,
    summary: &Summary,
    name: &str,
    reader: &EditionReader,
    index: &[u8],
    text: &[u8],
) -> Option<PlannedChange>
    requires range { IsInRange (summary_shown summary.now) }
    requires read { HasRead index.now text.now reader.now }
    requires all { IsAtEnd index.now reader.now }
    ensures writable { IfSome result IsWritable }
{
    let Ok(reading) = reader.end(index, text) else {
        return None;
    };
    decide_install(alloc, summary, name, reading.title())
}

/// What is to be filed of a draft over this summary, of whose edition all is read and written. None where that isn't so, where the
/// summary refuses the install, or there is no memory.
///
/// Nothing is written.
pub fn plan_draft(alloc: Global, summary: &Summary, draft: Draft) -> Option<ReadInstall>
    requires { IsInRange (summary_shown summary.now) }
    ensures read { IfSome result IsReadInstall }
    ensures files { IfSome result (IsInstallOf draft.name draft.index draft.text) }
    ensures none { IfSome result (λ install. HasNoneFiled install.filing) }
{
    let Draft { files } = draft;
    let InstallFiles {
        name,
        came,
        text,
        progress,
        stored,
        is_whole,
        ..
    } = files;
    if !is_whole {
        return None;
    }
    let Progress::Reader(reader) = progress else {
        return None;
    };
    let change = decide_read(alloc, summary, name.as_str(), &reader, &came, &text)?;
    let filing = Filing {
        number: change.summary.installs,
        index: stored,
        text,
        is_begun: false,
        parts_filed: 0,
    };
    Some(ReadInstall {
        filing,
        name,
        came,
        reader,
    })
}

impl ReadInstall {
    /// The edition that its files say. None only where there is no memory.
    pub fn reading(&self) -> Option<Reading<'_>>
        requires { IsReadInstall self.now }
        ensures { IfSome result (IsReadEdition self.now.came.items self.now.filing.text.items) }
    {
        match self.reader.end(&self.came, &self.filing.text) {
            Ok(reading) => Some(reading),
            Err(_) => None,
        }
    }

    /// Whether it is of this name, this index and this text: they are compared octet by octet.
    pub fn is_of(&self, name: &str, index: &[u8], text: &[u8]) -> bool
        ensures { IsTrue result ↔ IsInstallOf name.now index.now text.now self.now }
    {
        is_same(self.name.as_bytes(), name.as_bytes())
            && is_same(&self.came, index)
            && is_same(&self.filing.text, text)
    }
}
