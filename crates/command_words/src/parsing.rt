//! The command as `clap` knows it, and its matches.
ghost use Rattle.std.specs.Prelude.{◌≡◌, ◌≢◌, [], false, Some, IfOk, IfNone, IfSome};
ghost use Rattle.clap.specs.Words.{app_of, rule_of, rows_of, found_of, fault_of, matches_of};
ghost use Rattle.spec_input.specs.Words.{option, flag, positional, several, plain_app, app};
ghost use Rattle.command_words.specs.CommandViews.{texts};

use clap::error::ErrorKind;
use clap::{Arg, ArgAction, ArgMatches};
use std::alloc::{AllocError, Global};

/// The names of the arguments.
pub const WORKERS: &str = "workers";

pub const STEPS: &str = "steps";

pub const FLOW_LIMIT: &str = "flow-limit";

pub const NETFLOW: &str = "netflow";

pub const MIRRORS: &str = "mirrors";

pub const GENERATE: &str = "generate";

pub const EDITS: &str = "EDITS";

pub const OUT: &str = "OUT";

pub const TRACE: &str = "TRACE";

fn option<'a>(alloc: Global, name: &'a str) -> Arg<'a>
    ensures rule { rule_of result ≡ option name.entry.now }
    ensures local { result.global ≡ false }
{
    Arg::new(alloc, name).long(name)
}

fn flag<'a>(alloc: Global, name: &'a str) -> Arg<'a>
    ensures rule { rule_of result ≡ flag name.entry.now }
    ensures local { result.global ≡ false }
{
    Arg::new(alloc, name).long(name).action(ArgAction::SetTrue)
}

fn positional<'a>(alloc: Global, name: &'a str) -> Arg<'a>
    ensures rule { rule_of result ≡ positional name.entry.now }
    ensures local { result.global ≡ false }
{
    Arg::new(alloc, name)
}

fn several<'a>(alloc: Global, name: &'a str) -> Arg<'a>
    ensures rule { rule_of result ≡ several name.entry.now }
    ensures local { result.global ≡ false }
{
    Arg::new(alloc, name).action(ArgAction::Append)
}

fn plain_command<'a>(alloc: Global) -> clap::Command<'a>
    ensures { app_of result ≡ plain_app }
{
    clap::Command::new(alloc, "megaswitch")
        .no_binary_name(true)
        .disable_help_flag(true)
}

fn command<'a>(alloc: Global) -> Result<clap::Command<'a>, AllocError>
    ensures { IfOk result (λ c. app_of c ≡ app) }
{
    plain_command(alloc)
        .arg(option(alloc, WORKERS))?
        .arg(option(alloc, STEPS))?
        .arg(option(alloc, FLOW_LIMIT))?
        .arg(flag(alloc, NETFLOW))?
        .arg(option(alloc, MIRRORS))?
        .arg(option(alloc, GENERATE))?
        .arg(positional(alloc, EDITS))?
        .arg(positional(alloc, OUT))?
        .arg(several(alloc, TRACE))
}

/// The matches of words; none where `clap` refuses them.
pub fn matches<'a>(alloc: Global, words: &'a [String]) -> Result<Option<ArgMatches<'a>>, AllocError>
    ensures some { IfOk result (λ found.
        IfSome found (λ m. rows_of (found_of m) ≡ matches_of app (texts words.now))) }
    ensures whole { IfOk result (λ found. IfSome found (λ _. fault_of app (texts words.now) ≡ [])) }
    ensures none { IfOk result (λ found. IfNone found (fault_of app (texts words.now) ≢ [])) }
{
    match command(alloc)?.try_get_matches_from(words) {
        Ok(found) => Ok(Some(found)),
        Err(error) => match error.kind() {
            ErrorKind::OutOfMemory => Err(AllocError),
            _ => Ok(None),
        },
    }
}
