// What holds of every catalogue and every command.
ghost use Rattle.std.specs.Prelude.{◌≡◌, ◌↔◌, ◌++◌, List, ℕ, map};
ghost use Rattle.dict_index.specs.Edition.{Edition};
ghost use Rattle.dict_catalogue.specs.Commands.{Command};
ghost use Rattle.dict_catalogue.specs.Tests.{refusal_of};
ghost use Rattle.dict_catalogue.specs.Effects.{effect, reply_to, editions_gone};
ghost use Rattle.dict_catalogue.specs.Steps.{Catalogue, holdings, Outcome, CommandRequest, summary_of, command_summary, with_effect, empty_catalogue, step, IsStep, after, acting};
ghost use Rattle.dict_catalogue.specs.WellFormed.{IsLawfulCommand, IsWellFormed};

/// A command over a catalogue's summary does what it does over the catalogue: it is refused for the same test, the
/// summary after its effect is that of the catalogue after it, the same editions go, and the reply is the same.
pub fn summary_laws()
    ensures refusal { (M : Catalogue) (command : Command Edition) → refusal_of (summary_of M) (command_summary command) ≡ refusal_of (holdings M) command }
    ensures effect { (M : Catalogue) (id : List ℕ) (command : Command Edition) → effect (command_summary command) (summary_of M) ≡ summary_of (with_effect M id command) }
    ensures gone { (M : Catalogue) (id : List ℕ) (command : Command Edition) → editions_gone (summary_of M).items (effect (command_summary command) (summary_of M)).items ≡ editions_gone M.items (with_effect M id command).items }
    ensures reply { (M : Catalogue) (command : Command Edition) → reply_to (command_summary command) (effect (command_summary command) (summary_of M)) ≡ reply_to command (effect command (holdings M)) }
{}

/// For each catalogue, id and command there is exactly one reply and one catalogue after: those of the first of the
/// four cases that applies.
pub fn step_law()
    ensures { (M : Catalogue) (id : List ℕ) (command : Command Edition) (outcome : Outcome) → IsStep M id command outcome ↔ (outcome ≡ step M id command) }
{}

/// A list of commands leaves what those of them leave that act, alone; each of these acts then too, once: the replies
/// kept for them are the new ones, one for each.
pub fn after_laws()
    ensures same { (M : Catalogue) (requests : List CommandRequest) → after M (acting M requests) ≡ after M requests }
    ensures again { (M : Catalogue) (requests : List CommandRequest) → acting M (acting M requests) ≡ acting M requests }
    ensures once { (M : Catalogue) (requests : List CommandRequest) → map (λ one. one.id) (after M requests).kept ≡ map (λ one. one.id) M.kept ++ map (λ request. request.id) (acting M requests) }
{}

/// The empty catalogue is well formed, and a well formed catalogue stays so under every command whose edition, where
/// it has one, is well formed.
pub fn well_formed_laws()
    ensures empty { IsWellFormed empty_catalogue }
    ensures step { (M : Catalogue) (id : List ℕ) (command : Command Edition) → IsLawfulCommand command → IsWellFormed M → IsWellFormed (step M id command).catalogue }
{}
