// The files of an edition that a command is to install, made before the command comes.
ghost use Rattle.std.specs.Prelude.{◌≡◌, true, false, Some, None};

/// An edition that a command is to install: its number, and the octets of its two files. It counts how many of their parts are filed: committed
/// under the number, which no edition has yet.
#[derive(Drop)]
pub struct Filing {
    pub(crate) number: u64,
    pub(crate) index: Vec<u8>,
    pub(crate) text: Vec<u8>,
    // Whether what stood under the number was taken out.
    pub(crate) is_begun: bool,
    pub(crate) parts_filed: usize,
}

impl Filing {
    /// The number that its edition gets, if parts may stand under it.
    pub fn number_filed(&self) -> Option<u64>
        ensures begun { self.now.is_begun ≡ true → result ≡ Some self.now.number }
        ensures none { self.now.is_begun ≡ false → result ≡ None }
    {
        if self.is_begun {
            return Some(self.number);
        }
        None
    }
}
