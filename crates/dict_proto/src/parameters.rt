// What a command asks for with its parameters.
ghost use Rattle.std.specs.Prelude.{◌≡◌, ◌≢◌, Some, [], OnOk, OnErr, IfErr};
ghost use Rattle.std.specs.Option.{ForSome};
ghost use Rattle.dict_proto.specs.LineWords.{line_words};
ghost use Rattle.dict_proto.specs.Meaning.{asked, define_of, match_of, show_of, show_info_meaning, without_more};
ghost use Rattle.dict_proto.specs.Places.{AreUtf8Words, asked_with, shown_with};
ghost use Rattle.dict_proto.specs.Told.{Tells, requested};
ghost use Rattle.dict_proto.specs.declared.request.LineFault.TheVariants.{IllegalParameters};

use crate::command::{CommandName, Shown};
use crate::request::{LineFault, Request};
use crate::words::{has_word, next_word};
use std::alloc::Global;

// What a line asks for that can be cut into words.
pub(crate) fn parse_words(alloc: Global, line: &[u8]) -> Result<Request, LineFault>
    requires texts { AreUtf8Words (line_words line.now) }
    ensures { Tells result (asked (line_words line.now)) }
{
    let Some((name, rest)) = next_word(line) else {
        return Err(LineFault::NotRecognized);
    };
    match CommandName::by_name(&name) {
        Some(command) => parse_command(alloc, command, rest),
        None => Err(LineFault::NotRecognized),
    }
}

fn parse_command(alloc: Global, command: CommandName, rest: &[u8]) -> Result<Request, LineFault>
    requires texts { AreUtf8Words (line_words rest.now) }
    ensures { ForSome (line_words rest.now) (λ words. Tells result (asked_with (Some command) words)) }
{
    match command {
        CommandName::Define => parse_define(alloc, rest),
        CommandName::Match => parse_match(alloc, rest),
        CommandName::Show => parse_show(alloc, rest),
        CommandName::Client => Ok(Request::Client),
        CommandName::Status => without_more(Request::Status, rest),
        CommandName::Help => without_more(Request::Help, rest),
        CommandName::Quit => without_more(Request::Quit, rest),
        CommandName::LeftOut => Err(LineFault::NotImplemented),
    }
}

fn parse_define(alloc: Global, rest: &[u8]) -> Result<Request, LineFault>
    requires texts { AreUtf8Words (line_words rest.now) }
    ensures { ForSome (line_words rest.now) (λ words. Tells result (define_of words)) }
{
    let Some((database, rest)) = next_word(rest) else {
        return Err(LineFault::IllegalParameters);
    };
    let Some((word, rest)) = next_word(rest) else {
        return Err(LineFault::IllegalParameters);
    };
    no_more(rest)?;
    Ok(Request::Define {
        database: database.content(alloc)?,
        word: word.content(alloc)?,
    })
}

fn parse_match(alloc: Global, rest: &[u8]) -> Result<Request, LineFault>
    requires texts { AreUtf8Words (line_words rest.now) }
    ensures { ForSome (line_words rest.now) (λ words. Tells result (match_of words)) }
{
    let Some((database, rest)) = next_word(rest) else {
        return Err(LineFault::IllegalParameters);
    };
    let Some((strategy, rest)) = next_word(rest) else {
        return Err(LineFault::IllegalParameters);
    };
    let Some((word, rest)) = next_word(rest) else {
        return Err(LineFault::IllegalParameters);
    };
    no_more(rest)?;
    Ok(Request::Match {
        database: database.content(alloc)?,
        strategy: strategy.content(alloc)?,
        word: word.content(alloc)?,
    })
}

fn parse_show(alloc: Global, rest: &[u8]) -> Result<Request, LineFault>
    requires texts { AreUtf8Words (line_words rest.now) }
    ensures { ForSome (line_words rest.now) (λ words. Tells result (show_of words)) }
{
    let Some((name, rest)) = next_word(rest) else {
        return Err(LineFault::IllegalParameters);
    };
    match Shown::by_name(&name) {
        Some(shown) => parse_shown(alloc, shown, rest),
        None => Err(LineFault::IllegalParameters),
    }
}

fn parse_shown(alloc: Global, shown: Shown, rest: &[u8]) -> Result<Request, LineFault>
    requires texts { AreUtf8Words (line_words rest.now) }
    ensures { ForSome (line_words rest.now) (λ words. Tells result (shown_with (Some shown) words)) }
{
    match shown {
        Shown::Databases => without_more(Request::ShowDatabases, rest),
        Shown::Strategies => without_more(Request::ShowStrategies, rest),
        Shown::Server => without_more(Request::ShowServer, rest),
        Shown::Info => parse_info(alloc, rest),
    }
}

fn parse_info(alloc: Global, rest: &[u8]) -> Result<Request, LineFault>
    requires texts { AreUtf8Words (line_words rest.now) }
    ensures { ForSome (line_words rest.now) (λ words. Tells result (show_info_meaning words)) }
{
    let Some((database, rest)) = next_word(rest) else {
        return Err(LineFault::IllegalParameters);
    };
    no_more(rest)?;
    Ok(Request::ShowInfo {
        database: database.content(alloc)?,
    })
}

// Whether no words are left.
fn no_more(rest: &[u8]) -> Result<(), LineFault>
    ensures none { OnOk result (line_words rest.now ≡ Some []) }
    ensures some { OnErr result (ForSome (line_words rest.now) (λ words. words ≢ [])) }
    ensures fault { IfErr result (λ fault. fault ≡ IllegalParameters) }
{
    if has_word(rest) {
        Err(LineFault::IllegalParameters)
    } else {
        Ok(())
    }
}

// The request, if no words are left.
fn without_more(request: Request, rest: &[u8]) -> Result<Request, LineFault>
    ensures { ForSome (line_words rest.now) (λ words. Tells result (without_more (requested request) words)) }
{
    no_more(rest)?;
    Ok(request)
}
