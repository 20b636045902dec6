// What the program does to files.
ghost use Rattle.std.specs.Prelude.{◌≡◌, ◌∷◌, [], ℕ, List, Option, MatchOption, Result, MatchResult, ⊤};
ghost use Rattle.dict_proto.specs.Streams.{StreamChange, change};
ghost use Rattle.app_words.specs.declared.fault.ProgramFault.{ProgramFault as PrintedFault};
ghost use Rattle.net_serving.specs.Deeds.{Does, IsShut, Makes, Speaks, got};
ghost use Rattle.app_commands.specs.Catalogues.{IsMadeEmpty, IsSpared, StaysTrusted};

use app_words::ProgramFault;
use dict_desk::Keeper;
use dict_proto::{Sink, Source};
use net_serving::DeskOpener;

/// Makes catalogues in files, reads them whole, and runs sessions over them, beside what `DeskOpener` does.
pub trait Catalogues<K: Keeper>: DeskOpener<K> {
    /// The desk is one over the catalogue that was made in the database that a file was opened or made as, before its first call.
    ghost is_made: { K → Type 0 };

    /// The fault tells why no catalogue was made in the file with this path, by what was held of files before and is held now.
    ghost is_unmade: { List ℕ → Self → Self → PrintedFault → Type 0 };

    /// The file of a desk was read whole, between these two states of it, and holds a catalogue.
    ghost is_sound: { K → K → Type 0 };

    /// The fault tells that it holds none, or that it couldn't be read.
    ghost is_unsound: { K → K → PrintedFault → Type 0 };

    /// A session over the catalogue of the file with this path, of host `localhost` and as connection 1, read and wrote this and
    /// ended so, and left this desk; or the file had none, by what was held of files before and is held now.
    ghost has_spoken: { List ℕ → Option K → Self → Self → Result (Unit {0}) PrintedFault → StreamChange → StreamChange → Type 0 };

    /// Makes an empty catalogue in the file with this path, and opens its desk. A stop leaves that catalogue alone.
    fn make<'w>(&mut self, path: &'w str) -> Result<K, ProgramFault<'w>>
        ensures made { MatchResult result (IsMadeEmpty K.shows K.leaves_one_of is_made) (is_unmade path.entry.now self.old self.new) }
        ensures history { Does (Self.history self.old) (Self.history self.new) (Makes path.entry.now (got result) ∷ []) };

    /// Reads the file of a desk whole again. Nothing is written.
    fn audit(&mut self, desk: &mut K) -> Result<(), ProgramFault<'static>>
        ensures sound { MatchResult result (λ _. is_sound desk.old desk.new) (is_unsound desk.old desk.new) }
        ensures stays { StaysTrusted K.shows K.leaves_one_of K.keeps_beside K.is_trusted desk.old desk.new }
        ensures history { Self.history self.new ≡ Self.history self.old };

    /// Runs a session over the catalogue of the file with this path, which is opened for it and closed.
    fn session<'w, S: Source, W: Sink>(
        &mut self,
        path: &'w str,
        reader: &mut S,
        writer: &mut W,
    ) -> Result<(), ProgramFault<'w>>
        ensures spoken { (left : Option K) × has_spoken path.entry.now left self.old self.new result (change S.stream reader.old reader.new) (change W.stream writer.old writer.new)
            × Does (Self.history self.old) (Self.history self.new) (Speaks path.entry.now left ∷ [])
            × MatchOption left ⊤ (λ desk. (closed : Result (Unit {0}) PrintedFault) × IsShut K.shows K.leaves_one_of K.is_trusted Self.is_safe Self.holds_alone Self.still_leaves Self.still_keeps Self.is_uncopied desk closed self.new) }
        ensures spared { IsSpared result (change S.stream reader.old reader.new) (change W.stream writer.old writer.new) };
}
