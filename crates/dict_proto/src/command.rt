// The names of commands, and of what SHOW shows.
ghost use Rattle.std.specs.Prelude.{◌≡◌, ◌||◌, ℕ, List, codes};
ghost use Rattle.dict_proto.specs.Meaning.{is_word_named, command_of, show_meaning};
ghost use Rattle.dict_proto.specs.Content.{content_of};
ghost use Rattle.dict_proto.specs.Places.{asked_with, shown_with};

use crate::word::Word;

// A command by its name.
#[derive(Clone, Copy, Debug, PartialEq, Eq)]
pub(crate) enum CommandName {
    Define,
    Match,
    Show,
    Client,
    Status,
    Help,
    Quit,
    // OPTION, AUTH or SASLAUTH.
    LeftOut,
}

impl CommandName {
    pub(crate) fn by_name(name: &Word) -> Option<CommandName>
        ensures { (parameters : List (List ℕ)) → asked_with result parameters ≡ command_of (content_of name.now) parameters }
    {
        if name.is_named("DEFINE") {
            Some(CommandName::Define)
        } else if name.is_named("MATCH") {
            Some(CommandName::Match)
        } else if name.is_named("SHOW") {
            Some(CommandName::Show)
        } else if name.is_named("CLIENT") {
            Some(CommandName::Client)
        } else if name.is_named("STATUS") {
            Some(CommandName::Status)
        } else if name.is_named("HELP") {
            Some(CommandName::Help)
        } else if name.is_named("QUIT") {
            Some(CommandName::Quit)
        } else if is_left_out(name) {
            Some(CommandName::LeftOut)
        } else {
            None
        }
    }
}

// What SHOW shows, by its second word.
#[derive(Clone, Copy, Debug, PartialEq, Eq)]
pub(crate) enum Shown {
    Databases,
    Strategies,
    Server,
    Info,
}

impl Shown {
    pub(crate) fn by_name(name: &Word) -> Option<Shown>
        ensures { (parameters : List (List ℕ)) → shown_with result parameters ≡ show_meaning (content_of name.now) parameters }
    {
        if name.is_named("DB") || name.is_named("DATABASES") {
            Some(Shown::Databases)
        } else if name.is_named("STRAT") || name.is_named("STRATEGIES") {
            Some(Shown::Strategies)
        } else if name.is_named("SERVER") {
            Some(Shown::Server)
        } else if name.is_named("INFO") {
            Some(Shown::Info)
        } else {
            None
        }
    }
}

// Whether the command is one that this server leaves out.
fn is_left_out(name: &Word) -> bool
    ensures { result ≡ is_word_named (content_of name.now) (codes "OPTION") || (is_word_named (content_of name.now) (codes "AUTH") || is_word_named (content_of name.now) (codes "SASLAUTH")) }
{
    name.is_named("OPTION") || name.is_named("AUTH") || name.is_named("SASLAUTH")
}
