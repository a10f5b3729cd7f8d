//! Arguments of the command line, as `clap` has them.
ghost use Rattle.std.specs.Prelude.{◌≡◌, false, IfOk};
ghost use Rattle.clap.specs.Words.{rule_of};
ghost use Rattle.dtman_words.specs.Grammar as spec;

use clap::builder::ValueParser;
use clap::{Arg, ArgAction};
use std::alloc::{AllocError, Global};

/// An argument that has to be there.
pub fn required<'a>(alloc: Global, name: &'a str, about: &'a str) -> Arg<'a>
    ensures rule { rule_of result ≡ spec.required name.now }
    ensures local { result.global ≡ false }
{
    Arg::new(alloc, name).required(true).help(about)
}

/// One that may be left out.
pub fn optional<'a>(alloc: Global, name: &'a str, about: &'a str) -> Arg<'a>
    ensures rule { rule_of result ≡ spec.optional name.now }
    ensures local { result.global ≡ false }
{
    Arg::new(alloc, name).help(about)
}

/// An option with a text.
pub fn asked_text<'a>(alloc: Global, name: &'a str, value: &'a str, about: &'a str) -> Arg<'a>
    ensures rule { rule_of result ≡ spec.asked_text name.now }
    ensures local { result.global ≡ false }
{
    Arg::new(alloc, name)
        .long(name)
        .value_name(value)
        .help(about)
}

/// An option with a text and a short name.
pub fn lettered<'a>(
    alloc: Global,
    name: &'a str,
    short: char,
    value: &'a str,
    about: &'a str,
) -> Arg<'a>
    ensures rule { rule_of result ≡ spec.lettered name.now short }
    ensures local { result.global ≡ false }
{
    Arg::new(alloc, name)
        .long(name)
        .short(short)
        .value_name(value)
        .help(about)
}

/// Arguments of which any number may stand behind the others.
pub fn others<'a>(alloc: Global, name: &'a str, about: &'a str) -> Arg<'a>
    ensures rule { rule_of result ≡ spec.others name.now }
    ensures local { result.global ≡ false }
{
    Arg::new(alloc, name).action(ArgAction::Append).help(about)
}

/// Arguments of which one has to be there.
pub fn several<'a>(alloc: Global, name: &'a str, about: &'a str) -> Arg<'a>
    ensures rule { rule_of result ≡ spec.several name.now }
    ensures local { result.global ≡ false }
{
    Arg::new(alloc, name)
        .required(true)
        .action(ArgAction::Append)
        .help(about)
}

/// An option with a text and a short name, which may be given again and again.
pub fn listed<'a>(
    alloc: Global,
    name: &'a str,
    short: char,
    value: &'a str,
    about: &'a str,
) -> Arg<'a>
    ensures rule { rule_of result ≡ spec.listed name.now short }
    ensures local { result.global ≡ false }
{
    Arg::new(alloc, name)
        .long(name)
        .short(short)
        .action(ArgAction::Append)
        .value_name(value)
        .help(about)
}

/// An option with a text, which may be given again and again.
pub fn again<'a>(alloc: Global, name: &'a str, value: &'a str, about: &'a str) -> Arg<'a>
    ensures rule { rule_of result ≡ spec.again name.now }
    ensures local { result.global ≡ false }
{
    Arg::new(alloc, name)
        .long(name)
        .action(ArgAction::Append)
        .value_name(value)
        .help(about)
}

/// An option without a value, which is counted.
pub fn counted<'a>(alloc: Global, name: &'a str, short: char, about: &'a str) -> Arg<'a>
    ensures rule { rule_of result ≡ spec.counted name.now short }
    ensures local { result.global ≡ false }
{
    Arg::new(alloc, name)
        .long(name)
        .short(short)
        .action(ArgAction::Count)
        .help(about)
}

/// An option without a value.
pub fn flag<'a>(alloc: Global, name: &'a str, about: &'a str) -> Arg<'a>
    ensures rule { rule_of result ≡ spec.flag name.now }
    ensures local { result.global ≡ false }
{
    Arg::new(alloc, name)
        .long(name)
        .action(ArgAction::SetTrue)
        .help(about)
}

/// An option without a value, which wants another beside it.
pub fn beside<'a>(
    alloc: Global,
    name: &'a str,
    other: &'a str,
    about: &'a str,
) -> Result<Arg<'a>, AllocError>
    ensures { IfOk result (λ a. (rule_of a ≡ spec.beside name.now) × (a.global ≡ false)) }
{
    Arg::new(alloc, name)
        .long(name)
        .action(ArgAction::SetTrue)
        .help(about)
        .requires_arg(other)
}

/// An option with a text, which wants another beside it.
pub fn text_beside<'a>(
    alloc: Global,
    name: &'a str,
    value: &'a str,
    other: &'a str,
    about: &'a str,
) -> Result<Arg<'a>, AllocError>
    ensures { IfOk result (λ a. (rule_of a ≡ spec.text_beside name.now) × (a.global ≡ false)) }
{
    Arg::new(alloc, name)
        .long(name)
        .value_name(value)
        .help(about)
        .requires_arg(other)
}

/// An option with a value, which wants another beside it.
pub fn repeated<'a>(
    alloc: Global,
    name: &'a str,
    short: char,
    value: &'a str,
    beside: &'a str,
    about: &'a str,
) -> Result<Arg<'a>, AllocError>
    ensures { IfOk result (λ a. (rule_of a ≡ spec.repeated name.now short) × (a.global ≡ false)) }
{
    Arg::new(alloc, name)
        .long(name)
        .short(short)
        .action(ArgAction::Append)
        .value_name(value)
        .help(about)
        .requires_arg(beside)
}

/// An option with a number from 1 to the most.
pub fn asked_number<'a>(alloc: Global, name: &'a str, most: u64, about: &'a str) -> Arg<'a>
    ensures rule { rule_of result ≡ spec.asked_number name.now most }
    ensures local { result.global ≡ false }
{
    Arg::new(alloc, name)
        .long(name)
        .value_parser(ValueParser::unsigned(1, most))
        .help(about)
}

/// The same, with a number where it isn't given.
pub fn number<'a>(
    alloc: Global,
    name: &'a str,
    most: u64,
    default: &'a str,
    about: &'a str,
) -> Arg<'a>
    ensures rule { rule_of result ≡ spec.number name.now most default.now }
    ensures local { result.global ≡ false }
{
    Arg::new(alloc, name)
        .long(name)
        .value_parser(ValueParser::unsigned(1, most))
        .default_value(default)
        .help(about)
}
