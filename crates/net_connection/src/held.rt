// What was read of a connection and isn't handed to the hub yet.
ghost use Rattle.std.specs.Prelude.{◌≡◌, ◌≤◌, false, vec_len, vec_capacity};
ghost use Rattle.net_connection.specs.Pieces.{first_line, next_piece};

use memchr::memchr;
use net_hub::Kind;

/// The most octets that one reading takes.
pub const PIECE: usize = 65_536;

// For how many turns the octets of one reading are held back at most, while the desk prepares what they complete.
const MAX_TURNS: u32 = 1_000_000;

/// The octets of one reading that aren't handed to the hub yet, in order. A reader's are handed line by line, and an
/// editor's as they came. Room for them is taken when it is made, and never grows.
#[derive(Drop)]
pub struct Held {
    kind: Kind,
    octets: Vec<u8>,
    // How many of them were handed.
    handed: usize,
    // For how many turns more they may be held back.
    turns_left: u32,
    // Whether the desk was told of what they complete.
    is_foreseen: bool,
    // For how many turns they were held back.
    waited: u64,
    ghost in_front: { handed ≤ vec_len octets },
    ghost few: { vec_len octets ≤ 65536 },
    ghost unforeseen: { is_foreseen ≡ false → turns_left ≡ 0 },
    ghost room: { 65536 ≤ vec_capacity octets },
}

impl Held {
    ghost use Rattle.std.specs.Prelude.{[], drop, length};
    ghost use Rattle.std.specs.Prelude.{◌<◌, ◌+◌, ◌-◌, ◌^◌, min, true};
    ghost use Rattle.net_connection.specs.Handing.{held_in, is_handed, turns_held};
    ghost use Rattle.net_hub.specs.Events.{is_of_editor};

    /// Nothing was read yet of a connection of this kind. This is the room for it.
    pub fn new(kind: Kind, octets: Vec<u8>) -> Self
        requires none { octets.items ≡ [] }
        requires room { 65536 ≤ vec_capacity octets }
        ensures kind { result.kind ≡ kind }
        ensures none { held_in result ≡ [] }
    {
        Held {
            kind,
            octets,
            handed: 0,
            turns_left: 0,
            is_foreseen: false,
            waited: 0,
        }
    }

    /// Whether all was handed.
    pub fn is_empty(&self) -> bool
        ensures { result ≡ is_handed self.now }
    {
        self.handed == self.octets.len()
    }

    /// Of which kind their connection is.
    pub fn kind(&self) -> Kind
        ensures { result ≡ self.now.kind }
    {
        self.kind
    }

    /// Whether they are of an editor's connection.
    pub fn is_of_editor(&self) -> bool
        ensures { result ≡ is_of_editor self.now.kind }
    {
        match self.kind {
            Kind::Dict => false,
            Kind::Http => true,
        }
    }

    /// For how many turns they were held back, where they are of an editor's connection and some are.
    pub fn turns_held(&self) -> u64
        ensures { result ≡ turns_held self.now }
    {
        if self.is_of_editor() && !self.is_empty() {
            self.waited
        } else {
            0
        }
    }

    /// Takes the octets of a reading, in place of those of the last one. They aren't held back.
    pub fn fill(&mut self, octets: &[u8])
        requires { length octets.now ≤ 65536 }
        ensures octets { held_in self.new ≡ octets.now }
        ensures kind { self.new.kind ≡ self.old.kind }
        ensures foreseen { self.new.is_foreseen ≡ false }
        ensures waited { self.new.waited ≡ 0 }
    {
        self.octets.clear();
        self.handed = 0;
        self.turns_left = 0;
        self.is_foreseen = false;
        self.waited = 0;
        let _ = self.octets.extend_from_slice(octets);
    }

    /// What is handed next: of a reader's octets those up to and with the first LF, and all where there is none; of an
    /// editor's all.
    pub fn next_piece(&self) -> &[u8]
        ensures value { result.now ≡ next_piece self.now.kind (held_in self.now) }
        ensures few { length result.now ≤ 65536 }
    {
        let octets = self.octets.as_slice().split_at(self.handed).1;
        match self.kind {
            Kind::Dict => first_line(octets),
            Kind::Http => octets,
        }
    }

    /// So many octets were handed.
    pub fn pass(&mut self, count: usize)
        requires { count ≤ length (held_in self.old) }
        ensures octets { held_in self.new ≡ drop count (held_in self.old) }
        ensures kind { self.new.kind ≡ self.old.kind }
    {
        self.handed += count;
    }

    /// The desk was told of what they complete: they may be held back for 1,000,000 turns from now on.
    pub fn hold_back(&mut self)
        ensures octets { held_in self.new ≡ held_in self.old }
        ensures kind { self.new.kind ≡ self.old.kind }
        ensures turns { self.new.turns_left ≡ 1_000_000 }
        ensures foreseen { self.new.is_foreseen ≡ true }
        ensures waited { self.new.waited ≡ self.old.waited }
    {
        self.turns_left = MAX_TURNS;
        self.is_foreseen = true;
    }

    /// Whether the desk was told of what they complete.
    pub fn is_foreseen(&self) -> bool
        ensures { result ≡ self.now.is_foreseen }
    {
        self.is_foreseen
    }

    /// Begins a turn in which an editor's octets may be held back while what they complete is prepared. Whether one was left.
    pub fn begin_turn(&mut self) -> bool
        ensures octets { held_in self.new ≡ held_in self.old }
        ensures kind { self.new.kind ≡ self.old.kind }
        ensures fewer { result ≡ true → (is_of_editor self.old.kind ≡ true) × (self.old.is_foreseen ≡ true) × (self.new.is_foreseen ≡ true) × (self.new.turns_left < self.old.turns_left) }
        ensures waited { result ≡ true → self.new.waited ≡ min (self.old.waited + 1) (2 ^ 64 - 1) }
    {
        if !self.is_of_editor() {
            return false;
        }
        if self.turns_left == 0 {
            return false;
        }
        self.turns_left -= 1;
        self.wait();
        true
    }

    /// One turn more in which they are held back.
    pub fn wait(&mut self)
        ensures octets { held_in self.new ≡ held_in self.old }
        ensures kind { self.new.kind ≡ self.old.kind }
        ensures turns { self.new.turns_left ≡ self.old.turns_left }
        ensures foreseen { self.new.is_foreseen ≡ self.old.is_foreseen }
        ensures waited { self.new.waited ≡ min (self.old.waited + 1) (2 ^ 64 - 1) }
    {
        self.waited = self.waited.saturating_add(1);
    }
}

// The octets up to and with the first LF, or all of them.
fn first_line(octets: &[u8]) -> &[u8]
    ensures { result.now ≡ first_line octets.now }
{
    match memchr(b'\n', octets) {
        Some(place) => &octets[..place + 1],
        None => octets,
    }
}
