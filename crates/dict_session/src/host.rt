// The name of a host.
ghost use Rattle.std.specs.Prelude.{◌≡◌};
ghost use Rattle.std.specs.List.{list_all};
ghost use Rattle.dict_text.specs.Names.{has_size};
ghost use Rattle.dict_session.specs.Limits.{is_host_octet, is_host};

/// The most octets of a host's name.
const MAX_HOST_OCTETS: usize = 253;

/// Whether a text may be a host's name: 1 to 253 of `A-Z a-z 0-9 . -`. Under such a name no line of a session is too
/// long.
#[tactic(auto, unfolding(crate::specs::Limits::is_host))]
pub fn is_host(text: &str) -> bool
    ensures { result ≡ is_host text.now }
{
    let octets = text.as_bytes();
    has_size(octets) && are_host_octets(octets)
}

fn has_size(octets: &[u8]) -> bool
    ensures { result ≡ has_size 253 octets.now }
{
    1 <= octets.len() && octets.len() <= MAX_HOST_OCTETS
}

fn are_host_octets(octets: &[u8]) -> bool
    ensures { result ≡ list_all is_host_octet octets.now }
{
    octets.iter().all(|octet| is_host_octet(*octet))
}

fn is_host_octet(octet: u8) -> bool
    ensures { result ≡ is_host_octet octet }
{
    octet.is_ascii_uppercase()
        || octet.is_ascii_lowercase()
        || octet.is_ascii_digit()
        || octet == b'.'
        || octet == b'-'
}
