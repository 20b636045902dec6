// A line, written as it is stored.
ghost use Rattle.std.specs.Prelude.{◌≡◌, ◌^◌, ◌<◌, ◌++◌, ◌∷◌, [], OnOk};
ghost use Rattle.dict_index.specs.Line.{behind_tab};
ghost use Rattle.store_rows.specs.Appended.{IsBeginningOf};
ghost use Rattle.store_rows.specs.Spelling.{spelling};
ghost use Rattle.store_rows.specs.Stored.{IsStorable, fourth_column, stored_line, saying};

use dict_text::{MAX_DIGITS, write_number};
use std::alloc::AllocError;

// Appends a tab and a number.
fn put_number(number: u64, to: &mut Vec<u8>) -> Result<(), AllocError>
    requires { number < 64 ^ 6 }
    ensures put { OnOk result (to.new.items ≡ to.old.items ++ 9 ∷ spelling number) }
    ensures kept { IsBeginningOf to.old.items to.new.items }
{
    let mut digits = [0; MAX_DIGITS];
    let count = write_number(number, &mut digits).min(MAX_DIGITS);
    to.push(b'\t')?;
    to.extend_from_slice(&digits[..count])?;
    Ok(())
}

// Appends a tab and what is shown, where that is another text than the headword.
fn put_shown(headword: &str, shown: &str, to: &mut Vec<u8>) -> Result<(), AllocError>
    ensures put { OnOk result (to.new.items ≡ to.old.items ++ behind_tab (fourth_column headword.now shown.now)) }
    ensures kept { IsBeginningOf to.old.items to.new.items }
{
    if shown == headword {
        return Ok(());
    }
    to.push(b'\t')?;
    to.extend_from_slice(shown.as_bytes())
}

/// Appends the line that says this, and its LF.
///
/// The offset and the size are in octets of the text. The error is that a growth was refused; a front of the line may have
/// been appended then.
pub fn write_line(
    headword: &str,
    offset: u64,
    size: u64,
    shown: &str,
    to: &mut Vec<u8>,
) -> Result<(), AllocError>
    requires { IsStorable (saying headword.now offset size shown.now) }
    ensures put { OnOk result (to.new.items ≡ to.old.items ++ (stored_line (saying headword.now offset size shown.now) ++ 10 ∷ [])) }
    ensures kept { IsBeginningOf to.old.items to.new.items }
{
    to.extend_from_slice(headword.as_bytes())?;
    put_number(offset, to)?;
    put_number(size, to)?;
    put_shown(headword, shown, to)?;
    to.push(b'\n')?;
    Ok(())
}
