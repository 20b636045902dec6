// The tests of one line, by those of an edition of that line alone.
ghost use Rattle.std.specs.Prelude.{◌≡◌, ◌≤◌, ◌++◌, ◌∷◌, [], ℕ, List, IfErr, OnOk, length};
ghost use Rattle.std.specs.Str.{IsUtf8};
ghost use Rattle.dict_index.specs.Cuts.{HasNo};
ghost use Rattle.dict_index.specs.Limits.{most_octets};
ghost use Rattle.dict_index.specs.Refusals.{line_tests};
ghost use Rattle.dict_index.specs.Refused.{PassesEach};
ghost use Rattle.dict_reading.specs.Lines.{FailsAlone};

use dict_index::{EditionRefusal, IndexFault, read_edition};
use std::alloc::Global;

/// Why a line is no line of an edition.
#[derive(Clone, Copy, Debug, PartialEq, Eq)]
pub(crate) enum EditionLineFault {
    Refused(EditionRefusal),
    Memory,
}

// Whether a line, with its LF, passes the tests of a line, as if it were the first.
pub(crate) fn test_line(alloc: Global, whole: &[u8], text: &[u8]) -> Result<(), EditionLineFault>
    requires text { length text.now ≤ most_octets }
    requires utf8 { IsUtf8 whole.now }
    ensures passes { OnOk result ((line : List ℕ) → whole.now ≡ line ++ 10 ∷ [] → HasNo 10 line → PassesEach line_tests text.now [] line) }
    ensures refused { IfErr result (λ fault. (line : List ℕ) → whole.now ≡ line ++ 10 ∷ [] → HasNo 10 line → FailsAlone fault text.now line) }
{
    match read_edition(alloc, whole, text) {
        Ok(_edition) => Ok(()),
        Err(IndexFault::Memory) => Err(EditionLineFault::Memory),
        Err(IndexFault::Refused { line: None, .. }) => Ok(()),
        Err(
            IndexFault::Refused {
                refusal,
                line: Some(_),
            },
        ) => Err(EditionLineFault::Refused(refusal)),
    }
}
