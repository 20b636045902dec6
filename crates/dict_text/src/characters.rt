// Kinds of characters.
ghost use Rattle.std.specs.Prelude.{◌≡◌};
ghost use Rattle.dict_text.specs.Characters.{is_blank, is_control, has_control};

/// Whether a character is a blank: a space or a tab.
pub fn is_blank(c: char) -> bool
    ensures { result ≡ is_blank c }
{
    c == ' ' || c == '\t'
}

/// Whether an octet is a blank, which in UTF-8 stands for itself alone.
pub fn is_blank_octet(octet: u8) -> bool
    ensures { result ≡ is_blank octet }
{
    is_blank(char::from(octet))
}

/// Whether a character is a control character: U+0000 to U+001F, or U+007F.
pub fn is_control(c: char) -> bool
    ensures { result ≡ is_control c }
{
    c < ' ' || c == '\u{7f}'
}

/// Whether an octet is a control character, which in UTF-8 stands for itself alone.
pub fn is_control_octet(octet: u8) -> bool
    ensures { result ≡ is_control octet }
{
    is_control(char::from(octet))
}

/// Whether a control character stands among the octets.
pub fn has_control(octets: &[u8]) -> bool
    ensures { result ≡ has_control octets.now }
{
    octets.iter().any(|octet| is_control_octet(*octet))
}
