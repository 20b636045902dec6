// A text without the blanks at its ends.
ghost use Rattle.std.specs.Prelude.{◌≡◌};
ghost use Rattle.dict_text.specs.Blanks.{without_leading_blanks, without_trailing_blanks, without_blanks_at_ends};

/// The text without the blanks at its front, borrowed from it.
pub fn without_leading_blanks(text: &[u8]) -> &[u8]
    ensures { result.now ≡ without_leading_blanks text.now }
{
    let mut rest = text;
    while let Some((b' ' | b'\t', others)) = rest.split_first() {
        rest = others;
    }
    rest
}

/// The text without the blanks at its end.
fn without_trailing_blanks(text: &[u8]) -> &[u8]
    ensures { result.now ≡ without_trailing_blanks text.now }
{
    let mut rest = text;
    while let Some((last, others)) = rest.split_last() {
        if *last != b' ' && *last != b'\t' {
            break;
        }
        rest = others;
    }
    rest
}

/// The text without the blanks at its ends, borrowed from it.
pub fn without_blanks_at_ends(text: &[u8]) -> &[u8]
    ensures { result.now ≡ without_blanks_at_ends text.now }
{
    without_trailing_blanks(without_leading_blanks(text))
}
