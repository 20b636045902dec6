// What opens the desks of the catalogues in files.
ghost use Rattle.std.specs.Prelude.{◌≡◌, ◌∷◌, [], ℕ, List, Option, None, Some, false, IfOk, IfErr, MatchResult};
ghost use Rattle.dict_catalogue.specs.Steps.{Catalogue};
ghost use Rattle.app_words.specs.declared.fault.ProgramFault.{ProgramFault as PrintedFault};
ghost use Rattle.net_serving.specs.Deeds.{Closes, Deed, Does, IsShut, Opens, Reopens, got};
ghost use Rattle.net_serving.specs.Serving.{Follows, IsNew, IsNone};

use app_words::ProgramFault;
use dict_desk::Keeper;

/// Opens the desks of the catalogues in files, by their paths, opens a file again where its store failed, and closes them.
pub trait DeskOpener<K: Keeper> {
    /// What was done to files so far, in order, where it is known.
    ghost history: { Self → Option (List (Deed K)) };

    /// The desk is one over the catalogue in the database that a file was opened as, before its first call: by its path, or again
    /// after this other desk of it was closed.
    ghost is_opened: { Option K → K → Type 0 };

    /// The fault tells why there is no desk of the file with this path, by what was held of files before and is held now.
    ghost is_unopened: { List ℕ → Self → Self → PrintedFault → Type 0 };

    /// The fault tells why the file with this path isn't opened again after this desk, whose store had failed, by what is held of the
    /// file now.
    ghost is_unreopened: { List ℕ → K → Self → PrintedFault → Type 0 };

    /// The file that was closed last has returned what was written to it.
    ghost is_safe: { Self → Type 0 };

    /// The file that was closed last holds this catalogue alone, without its log, and after a stop too.
    ghost holds_alone: { Self → Catalogue → Type 0 };

    /// Whatever a stop now leaves of the file of this desk, which was closed last, and of its log, is one of these.
    ghost still_leaves: { K → Self → List (Option Catalogue) → Type 0 };

    /// Whatever a stop now leaves of the file of this desk, which was closed last, and of its log, has beside the catalogue what the desk
    /// kept there.
    ghost still_keeps: { K → Self → Type 0 };

    /// The fault tells why the file of this desk, which was closed last, doesn't hold its catalogue alone.
    ghost is_uncopied: { K → Self → PrintedFault → Type 0 };

    /// Opens the file with this path, and the desk of its catalogue, which shows a catalogue, and of which a stop leaves that one
    /// alone. A fault is one of the file or of its catalogue, and no refusal.
    fn open<'w>(&mut self, path: &'w str) -> Result<K, ProgramFault<'w>>
        ensures opened { MatchResult result (IsNew K.shows K.leaves_one_of K.is_trusted (is_opened None)) (IsNone (is_unopened path.entry.now self.old self.new)) }
        ensures answers { IfOk result (λ desk. K.is_closed desk ≡ false) }
        ensures history { Does (history self.old) (history self.new) (Opens path.entry.now (got result) ∷ []) };

    /// Opens the file as `open` does, for a command: the first lookups in an edition may take longer.
    fn open_for_command<'w>(&mut self, path: &'w str) -> Result<K, ProgramFault<'w>>
        ensures opened { MatchResult result (IsNew K.shows K.leaves_one_of K.is_trusted (is_opened None)) (IsNone (is_unopened path.entry.now self.old self.new)) }
        ensures answers { IfOk result (λ desk. K.is_closed desk ≡ false) }
        ensures history { Does (history self.old) (history self.new) (Opens path.entry.now (got result) ∷ []) };

    /// Closes a desk whose store failed, and opens the same file again, which has this path. The new desk shows one of the catalogues
    /// that a stop could have left of the other, and a stop leaves that one alone. A fault is one of the file or of its catalogue, and no refusal; then a stop leaves
    /// nothing of the file that it couldn't leave of the other desk.
    fn reopen<'w>(&mut self, path: &'w str, desk: K) -> Result<K, ProgramFault<'w>>
        ensures opened { MatchResult result (IsNew K.shows K.leaves_one_of K.is_trusted (is_opened (Some desk))) (IsNone (is_unreopened path.entry.now desk self.new)) }
        ensures answers { IfOk result (λ desk. K.is_closed desk ≡ false) }
        ensures follows { IfOk result (Follows K.shows K.leaves_one_of K.keeps_beside K.is_trusted desk) }
        ensures leaves { IfErr result (λ _. (ms : List (Option Catalogue)) → K.leaves_one_of desk ms → still_leaves desk self.new ms) }
        ensures beside { IfErr result (λ _. still_keeps desk self.new) }
        ensures history { Does (history self.old) (history self.new) (Reopens path.entry.now desk (got result) ∷ []) };

    /// Closes a desk and its file, which then holds the catalogue alone, without its log. At a fault, `Memory` or `Store(Disk)`, it
    /// holds it with its log.
    fn close(&mut self, desk: K) -> Result<(), ProgramFault<'static>>
        ensures shut { IsShut K.shows K.leaves_one_of K.is_trusted is_safe holds_alone still_leaves still_keeps is_uncopied desk result self.new }
        ensures history { Does (history self.old) (history self.new) (Closes desk ∷ []) };
}
