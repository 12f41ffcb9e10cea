//! The kinds of argument that the program's command has.

ghost use Rattle.std.specs.Prelude.{◌≡◌, ◌↔◌, [], ◌∷◌, Some, codes, false, is_some, true};
ghost use Rattle.clap.specs.Words.{first_value, found_of, one_text, rule_of};
ghost use Rattle.semantics.specs.CommandLine.{flag, number_option, required_option, required_word, IsNumberIn};

use clap::{Arg, ArgAction, ArgMatches, value_parser};
use std::alloc::Global;

/// An option `--NAME <VALUE>` that has to be given, with its line of help.
pub(crate) fn required_option<'a>(
    alloc: Global,
    name: &'a str,
    value: &'a str,
    help: &'a str,
) -> Arg<'a>
    ensures rule { rule_of result ≡ required_option name.now }
    ensures local { result.global ≡ false }
{
    required_word(alloc, name, value, help).long(name)
}

/// An option `--NAME <VALUE>` whose value is a number of 64 bits, with its line of help.
pub(crate) fn number_option<'a>(
    alloc: Global,
    name: &'a str,
    value: &'a str,
    help: &'a str,
) -> Arg<'a>
    ensures rule { rule_of result ≡ number_option name.now [] }
    ensures local { result.global ≡ false }
{
    Arg::new(alloc, name)
        .long(name)
        .value_name(value)
        .value_parser(value_parser!(u64))
        .help(help)
}

/// The same, with the number that stands where it is not given.
pub(crate) fn defaulted_option<'a>(
    alloc: Global,
    name: &'a str,
    value: &'a str,
    default: &'a str,
    help: &'a str,
) -> Arg<'a>
    ensures rule { rule_of result ≡ number_option name.now (default.now ∷ []) }
    ensures local { result.global ≡ false }
{
    number_option(alloc, name, value, help).default_value(default)
}

/// A flag `--NAME`, which takes no value, with its line of help.
pub(crate) fn flag<'a>(alloc: Global, name: &'a str, help: &'a str) -> Arg<'a>
    ensures rule { rule_of result ≡ flag name.now }
    ensures local { result.global ≡ false }
{
    Arg::new(alloc, name)
        .long(name)
        .action(ArgAction::SetTrue)
        .help(help)
}

/// A word of its own that has to be given, with its line of help.
pub(crate) fn required_word<'a>(
    alloc: Global,
    name: &'a str,
    value: &'a str,
    help: &'a str,
) -> Arg<'a>
    ensures rule { rule_of result ≡ required_word name.now }
    ensures local { result.global ≡ false }
{
    Arg::new(alloc, name)
        .value_name(value)
        .action(ArgAction::Set)
        .required(true)
        .help(help)
}

/// The text of an argument that has one.
pub(crate) fn text_of<'a>(matches: &ArgMatches<'a>, name: &str) -> &'a str
    requires { is_some (first_value (found_of matches.now) name.now) ≡ true }
    ensures { first_value (found_of matches.now) name.now ≡ Some result.now }
{
    match matches.get_str(name) {
        Some(text) => text,
        None => unreachable!(),
    }
}

/// The number of an argument, where it has one.
pub(crate) fn number_of(matches: &ArgMatches<'_>, name: &str) -> Option<u64>
    ensures { IsNumberIn (one_text (found_of matches.now) name.now) result }
{
    matches.get_one::<u64>(name)
}

/// Whether a flag is set: its value is `true`.
pub(crate) fn is_set(matches: &ArgMatches<'_>, name: &str) -> bool
    ensures { (result ≡ true) ↔ (one_text (found_of matches.now) name.now ≡ Some (codes "true")) }
{
    matches.get_one::<bool>(name).unwrap_or(false)
}
