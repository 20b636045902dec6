// What a line asks.
ghost use Rattle.std.specs.Prelude.{◌≡◌};

use std::alloc::AllocError;

/// A command. Its words are the line's, byte for byte, without their quoting.
#[derive(Debug, PartialEq, Eq, Drop)]
pub enum Request {
    /// DEFINE (RFC 2229, section 3.2): the definitions of the word in the database.
    Define {
        database: String,
        word: String,
    },
    /// MATCH (section 3.3): the headwords in the database that the strategy finds by the word.
    Match {
        database: String,
        strategy: String,
        word: String,
    },
    /// SHOW DB or SHOW DATABASES (section 3.5.1).
    ShowDatabases,
    /// SHOW STRAT or SHOW STRATEGIES (section 3.5.2).
    ShowStrategies,
    /// SHOW SERVER (section 3.5.4).
    ShowServer,
    /// SHOW INFO (section 3.5.3): what is known of the database.
    ShowInfo {
        database: String,
    },
    /// CLIENT (section 3.6), with any words.
    Client,
    /// STATUS (section 3.7).
    Status,
    /// HELP (section 3.8).
    Help,
    /// QUIT (section 3.9): the end of the session.
    Quit,
}

/// Why a line is no command that is answered.
#[derive(Clone, Copy, Debug, PartialEq, Eq)]
pub enum LineFault {
    /// 500: the line is too long, not UTF-8 or has a control character, or it is no known command.
    NotRecognized,
    /// 501: the line can't be cut into words, or the command's parameters are too few, too many or unknown.
    IllegalParameters,
    /// 502: OPTION, AUTH or SASLAUTH.
    NotImplemented,
    /// The growth of a word was refused.
    Memory,
}

impl From<AllocError> for LineFault {
    ghost use Rattle.dict_proto.specs.declared.request.LineFault.TheVariants.{Memory};

    ghost from_gives = { λ _ fault. fault ≡ Memory };

    fn from(_: AllocError) -> Self {
        LineFault::Memory
    }
}
