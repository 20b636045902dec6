// What an install does, planned before its edition is made.
ghost use Rattle.std.specs.Prelude.{IfSome};
ghost use Rattle.dict_catalogue.specs.Commands.{install};
ghost use Rattle.dict_catalogue.specs.Views.{summary_shown, IsChange};
ghost use Rattle.store_commands.specs.Changes.{IsWritable, IsInRange};

use crate::deciding::decide;
use dict_catalogue::{Command, PlannedChange, Summary};
use dict_index::{Edition, read_edition};
use std::alloc::{AllocError, Global};

// The index of an edition that has a title and no entries, whose text has so many octets: the most that a title has.
static TITLE_INDEX: &[u8] = b"00-database-short\tA\tDI\n";

const TITLE_OCTETS: usize = 200;

// The title, behind which blanks stand.
fn title_text(alloc: Global, title: &str) -> Result<Vec<u8>, AllocError> {
    let mut text = Vec::from_slice(alloc, title.as_bytes())?;
    text.resize(TITLE_OCTETS, b' ')?;
    Ok(text)
}

// What an install of this edition does over this summary, where its title is this.
fn decide_with(
    alloc: Global,
    summary: &Summary,
    name: &str,
    edition: &Edition<'_>,
    title: &str,
) -> Option<PlannedChange>
    requires { IsInRange (summary_shown summary.now) }
    ensures planned { IfSome result (IsChange (summary_shown summary.now) (install name.now title.now)) }
    ensures writable { IfSome result (λ change. IsWritable change × IsInRange (summary_shown change.summary)) }
{
    if edition.title() != title {
        return None;
    }
    match decide(alloc, summary, &Command::Install { name, edition }) {
        Ok(change) => Some(change),
        Err(_) => None,
    }
}

/// What an install of an edition of this title does over this summary: a plan asks of an edition its title alone, so it is made with an
/// edition that has nothing else. None where the summary refuses it, or there is no memory for that. Its numbers can be written.
pub(crate) fn decide_install(
    alloc: Global,
    summary: &Summary,
    name: &str,
    title: &str,
) -> Option<PlannedChange>
    requires { IsInRange (summary_shown summary.now) }
    ensures planned { IfSome result (IsChange (summary_shown summary.now) (install name.now title.now)) }
    ensures writable { IfSome result (λ change. IsWritable change × IsInRange (summary_shown change.summary)) }
{
    let Ok(text) = title_text(alloc, title) else {
        return None;
    };
    let Ok(edition) = read_edition(alloc, TITLE_INDEX, &text) else {
        return None;
    };
    decide_with(alloc, summary, name, &edition, title)
}
