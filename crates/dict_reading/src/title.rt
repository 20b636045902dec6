// The title and the info that a database's reserved texts tell.
ghost use Rattle.std.specs.Prelude.{◌≡◌, IfOk, IfErr, Some};
ghost use Rattle.dict_index.specs.Refused.{IsTitleFault};
ghost use Rattle.dict_index.specs.Reserved.{title_from, info_from};
ghost use Rattle.dict_index.specs.Tests.{IsTitle};
ghost use Rattle.dict_index.specs.Views.{octets_of};

use dict_index::{EditionRefusal, IndexFault, is_title, refused, title_of, without_key_line};
use std::alloc::{AllocError, Global};

// The title that the short text tells.
fn read_title<'a>(alloc: Global, short: Option<&'a str>) -> Result<&'a str, IndexFault>
    ensures title { IfOk result (λ title. title_from (octets_of short.entry) ≡ Some title.now) }
    ensures good { IfOk result (λ title. IsTitle title.now) }
    ensures refused { IfErr result (λ fault. IsTitleFault fault (title_from (octets_of short.entry))) }
{
    let Some(short) = short else {
        return Err(refused(EditionRefusal::NoTitle));
    };
    let title = match title_of(alloc, short) {
        Ok(Some(title)) => title,
        Ok(None) => return Err(refused(EditionRefusal::NoTitle)),
        Err(_) => return Err(IndexFault::Memory),
    };
    if !is_title(title) {
        return Err(refused(EditionRefusal::BadTitle));
    }
    Ok(title)
}

// The info that the info text tells.
fn read_info<'a>(alloc: Global, info: Option<&'a str>) -> Result<&'a str, AllocError>
    ensures { IfOk result (λ told. told.now ≡ info_from (octets_of info.entry)) }
{
    let Some(info) = info else {
        return Ok("");
    };
    without_key_line(alloc, info, b"00databaseinfo")
}

// The title and the info that the short text and the info text tell.
pub(crate) fn title_and_info<'a>(
    alloc: Global,
    short: Option<&'a str>,
    info: Option<&'a str>,
) -> Result<(&'a str, &'a str), IndexFault>
    ensures title { IfOk result (λ told. title_from (octets_of short.entry) ≡ Some told.0.now) }
    ensures good { IfOk result (λ told. IsTitle told.0.now) }
    ensures info { IfOk result (λ told. told.1.now ≡ info_from (octets_of info.entry)) }
    ensures refused { IfErr result (λ fault. IsTitleFault fault (title_from (octets_of short.entry))) }
{
    let title = match read_title(alloc, short) {
        Ok(title) => title,
        Err(fault) => return Err(fault),
    };
    match read_info(alloc, info) {
        Ok(info) => Ok((title, info)),
        Err(_) => Err(IndexFault::Memory),
    }
}
