//! The options of each command, as `clap` reads them.
ghost use Rattle.std.specs.Prelude.{◌≡◌, ◌∷◌, [], Some, true, false, map, codes, IfOk, Err};
ghost use Rattle.std.specs.String.{string_bytes};
ghost use Rattle.std.specs.Option.{option_map_or};
ghost use Rattle.clap.specs.Words.{HasMatchesOf, IsParsedFrom, Text, app_of, fault_of, found_of, is_simple_and_free, one_text, rule_of, takes};
ghost use Rattle.clap.specs.Values.{IsUnsignedIn};
ghost use Rattle.command_words.specs.Meaning.{number_of};
ghost use Rattle.command_words.specs.Options.{calls, counter, frames, option_rule, parser_with, queue, rule_for, seed, serial};

use crate::refusal::{Refused, refusal_of};
use clap::builder::ValueParser;
use clap::{Arg, ArgAction, ArgMatches, Command};
use std::alloc::{AllocError, Global};

// The option `--name value`, of a number between these two.
fn number_option<'a>(alloc: Global, name: &'static str, least: u64, most: u64) -> Arg<'a>
    ensures rule { rule_of result ≡ option_rule name.now least most }
    ensures local { result.global ≡ false }
{
    Arg::new(alloc, name)
        .long(name)
        .action(ArgAction::Set)
        .value_parser(ValueParser::Unsigned(least, most))
}

fn frames_option<'a>(alloc: Global) -> Arg<'a>
    ensures rule { rule_of result ≡ rule_for frames }
    ensures local { result.global ≡ false }
{
    number_option(alloc, "frames", 24, 4096)
}

// The command of this name, with no options and no `--help`.
fn bare_parser<'a>(alloc: Global, name: &'static str) -> Command<'a>
    ensures { app_of result ≡ parser_with name.now [] }
{
    Command::new(alloc, name).disable_help_flag(true)
}

/// The options of `run`.
pub(crate) fn run_parser<'a>(alloc: Global) -> Result<Command<'a>, AllocError>
    ensures { IfOk result (λ c. app_of c ≡ parser_with (codes "run") (frames ∷ queue ∷ [])) }
{
    bare_parser(alloc, "run")
        .arg(frames_option(alloc))?
        .arg(number_option(alloc, "queue", 0, 256))
}

/// The options of `processes`.
pub(crate) fn processes_parser<'a>(alloc: Global) -> Result<Command<'a>, AllocError>
    ensures { IfOk result (λ c. app_of c ≡ parser_with (codes "processes") (frames ∷ [])) }
{
    bare_parser(alloc, "processes").arg(frames_option(alloc))
}

/// The options of `replicate`.
pub(crate) fn replicate_parser<'a>(alloc: Global) -> Result<Command<'a>, AllocError>
    ensures { IfOk result (λ c. app_of c ≡ parser_with (codes "replicate") (frames ∷ [])) }
{
    bare_parser(alloc, "replicate").arg(frames_option(alloc))
}

/// The options of `format`.
pub(crate) fn format_parser<'a>(alloc: Global) -> Result<Command<'a>, AllocError>
    ensures { IfOk result (λ c. app_of c ≡ parser_with (codes "format") (serial ∷ counter ∷ [])) }
{
    bare_parser(alloc, "format")
        .arg(number_option(alloc, "serial", 1, 4_294_967_295))?
        .arg(number_option(alloc, "counter", 1, 4_294_967_295))
}

/// The options of `scavenge`: none.
pub(crate) fn scavenge_parser<'a>(alloc: Global) -> Command<'a>
    ensures { app_of result ≡ parser_with (codes "scavenge") [] }
{
    bare_parser(alloc, "scavenge")
}

/// The options of `convert`: none.
pub(crate) fn convert_parser<'a>(alloc: Global) -> Command<'a>
    ensures { app_of result ≡ parser_with (codes "convert") [] }
{
    bare_parser(alloc, "convert")
}

/// The options of `trial`.
pub(crate) fn trial_parser<'a>(alloc: Global) -> Result<Command<'a>, AllocError>
    ensures { IfOk result (λ c. app_of c ≡ parser_with (codes "trial") (seed ∷ calls ∷ frames ∷ [])) }
{
    drawn_parser(alloc)?.arg(frames_option(alloc))
}

// The options of `trial` but for the frames.
fn drawn_parser<'a>(alloc: Global) -> Result<Command<'a>, AllocError>
    ensures { IfOk result (λ c. app_of c ≡ parser_with (codes "trial") (seed ∷ calls ∷ [])) }
{
    bare_parser(alloc, "trial")
        .arg(number_option(alloc, "seed", 0, 4_294_967_295))?
        .arg(number_option(alloc, "calls", 0, 1_000_000))
}

/// What `clap` finds in the words.
pub(crate) fn read<'a>(parser: Command<'a>, words: &'a [String]) -> Result<ArgMatches<'a>, Refused>
    ensures matches { IfOk result (HasMatchesOf (app_of parser.entry) (map string_bytes words.entry.now)) }
    ensures parsed { IfOk result (λ m. IsParsedFrom parser.entry m) }
    ensures faultless { is_simple_and_free (app_of parser.entry) ≡ true
        → IfOk result (λ _. fault_of (app_of parser.entry) (map string_bytes words.entry.now) ≡ []) }
    ensures refused { result ≡ Err Refused.Usage
        → takes (app_of parser.entry) (map string_bytes words.entry.now) ≡ false }
{
    match parser.try_get_matches_from(words) {
        Ok(matches) => Ok(matches),
        Err(error) => Err(refusal_of(&error)),
    }
}

/// The number that was given for a name, or the one that it has otherwise.
pub(crate) fn number_or(matches: &ArgMatches<'_>, name: &str, otherwise: u32) -> u32
    requires fits { (text : Text) → one_text (found_of matches.now) name.now ≡ Some text
        → IsUnsignedIn 0 4294967295 text }
    ensures { result ≡ option_map_or number_of (one_text (found_of matches.now) name.now) otherwise }
{
    matches.get_one(name).unwrap_or(otherwise)
}
