//! Definitions of commands, and the `clap` commands made from them.

ghost use Rattle.std.specs.Prelude.{◌≡◌, IfOk, false, find, map, option_map};
ghost use Rattle.clap.specs.Simple.{label_of};
ghost use Rattle.clap.specs.Walk.{answers_to};
ghost use Rattle.clap.specs.Words.{app_of, rule_of, shape_of};
ghost use Rattle.gptedit_words.specs.Definitions.{rule_for, shape_for, with_commands, with_rules};
ghost use Rattle.gptedit_words.specs.Line.{flag, line, long_word, option, place};
ghost use Rattle.gptedit_words.specs.Named.{bare, command_named, only, ReadsAs};
ghost use Rattle.gptedit_words.specs.Spelled.{texts_of};

use crate::commands::{CHANGES, LOOKS};
use clap::builder::ValueParser;
use clap::{Arg, ArgAction, Command};
use std::alloc::{AllocError, Global};

/// The definition of a command.
pub(crate) struct Definition {
    /// The name.
    pub(crate) name: &'static str,
    /// The help text.
    pub(crate) about: &'static str,
    /// An example of its use.
    pub(crate) example: &'static str,
    /// Its own arguments.
    pub(crate) arguments: &'static [Argument],
    /// The options that it shares with other commands.
    pub(crate) options: &'static [Argument],
}

/// An argument of a command, with its help. It is identified by the long form of an option with the hyphens, or by the
/// name of a positional argument in the usage.
#[derive(Clone, Copy)]
pub(crate) enum Argument {
    /// An option without a value.
    Flag(&'static str, &'static str),
    /// An option without a value that also has a letter.
    Lettered(char, &'static str, &'static str),
    /// An option with a value, and the name of the value.
    Value(&'static str, &'static str, &'static str),
    /// An option whose value is from 1 to this number.
    Number(&'static str, u64, &'static str),
    /// A positional argument that is not empty.
    Place(&'static str, &'static str),
    /// One or more of them.
    Places(&'static str, &'static str),
    /// A positional argument that may be omitted, and else is not empty.
    MayPlace(&'static str, &'static str),
}

/// Returns the command line of `gptedit`. Fails only if an allocation fails.
pub fn command<'a>(alloc: Global) -> Result<Command<'a>, AllocError>
    ensures line { IfOk result (λ command. app_of command ≡ line) }
{
    let command = with_commands(alloc, bare(alloc), LOOKS.as_slice())?;
    with_commands(alloc, command, CHANGES.as_slice())
}

/// Returns a command line that reads these arguments as the whole one does. It has only the command that the second
/// argument names, if that names one. Fails only if an allocation fails.
pub(crate) fn command_for<'a>(alloc: Global, words: &[String]) -> Result<Command<'a>, AllocError>
    ensures reads { IfOk result (λ command. ReadsAs (texts_of words.now) (app_of command)) }
{
    let Some(name) = words.get(1) else {
        return command(alloc);
    };
    match find_definition(name) {
        Some(definition) => only(alloc, definition),
        None => command(alloc),
    }
}

// Returns the definition of the command of this name.
fn find_definition(name: &str) -> Option<&'static Definition>
    ensures named { option_map (λ d. shape_for d.now) result ≡ command_named name.now }
{
    find_among(LOOKS.as_slice(), name).or(find_among(CHANGES.as_slice(), name))
}

// Returns the first of these definitions that has this name.
fn find_among(definitions: &'static [Definition], name: &str) -> Option<&'static Definition>
    ensures named { option_map (λ d. shape_for d.now) result ≡ find (λ s. answers_to name.now (label_of s)) (map shape_for definitions.now) }
{
    for definition in definitions {
        if definition.name == name {
            return Some(definition);
        }
    }
    None
}

// Returns the command line with only this command.
fn only<'a>(alloc: Global, definition: &Definition) -> Result<Command<'a>, AllocError>
    ensures one { IfOk result (λ c. app_of c ≡ only (shape_for definition.now)) }
{
    bare(alloc).subcommand(subcommand(alloc, definition)?)
}

// Returns the command line without commands.
fn bare<'a>(alloc: Global) -> Command<'a>
    ensures bare { app_of result ≡ bare }
{
    Command::new(alloc, "gptedit")
        .version("0.1.0")
        .about("Shows and edits GUID partition tables")
        .subcommand_required(true)
        .arg_required_else_help(true)
        .after_help("Each command has an example: gptedit add --help")
}

// Adds these commands.
fn with_commands<'a>(
    alloc: Global,
    mut command: Command<'a>,
    definitions: &[Definition],
) -> Result<Command<'a>, AllocError>
    ensures commands { IfOk result (λ c. app_of c ≡ with_commands (app_of command.entry) (map shape_for definitions.now)) }
{
    for definition in definitions {
        command = command.subcommand(subcommand(alloc, definition)?)?;
    }
    Ok(command)
}

fn subcommand<'a>(alloc: Global, definition: &Definition) -> Result<Command<'a>, AllocError>
    ensures shape { IfOk result (λ c. shape_of c ≡ shape_for definition.now) }
{
    let command = Command::new(alloc, definition.name)
        .about(definition.about)
        .after_help(definition.example);
    let command = with_arguments(alloc, command, definition.arguments)?;
    with_arguments(alloc, command, definition.options)
}

// Adds these arguments.
fn with_arguments<'a>(
    alloc: Global,
    mut command: Command<'a>,
    arguments: &[Argument],
) -> Result<Command<'a>, AllocError>
    ensures rules { IfOk result (λ c. app_of c ≡ with_rules (app_of command.entry) (map rule_for arguments.now)) }
{
    for argument in arguments {
        command = command.arg(arg_of(alloc, *argument))?;
    }
    Ok(command)
}

// Returns the `clap` argument for a definition.
fn arg_of<'a>(alloc: Global, argument: Argument) -> Arg<'a>
    ensures rule { rule_of result ≡ rule_for argument }
    ensures local { result.global ≡ false }
{
    match argument {
        Argument::Flag(word, help) => flag(alloc, word, help),
        Argument::Lettered(letter, word, help) => flag(alloc, word, help).short(letter),
        Argument::Value(word, value, help) => option(alloc, word, help).value_name(value),
        Argument::Number(word, most, help) => {
            let parser = ValueParser::unsigned(1, most);
            option(alloc, word, help)
                .value_name("N")
                .value_parser(parser)
        }
        Argument::Place(name, help) => place(alloc, name, help).required(true),
        Argument::Places(name, help) => place(alloc, name, help)
            .required(true)
            .num_args(1..)
            .action(ArgAction::Append),
        Argument::MayPlace(name, help) => place(alloc, name, help),
    }
}

// Returns an option without a value.
fn flag<'a>(alloc: Global, word: &'a str, help: &'a str) -> Arg<'a>
    ensures rule { rule_of result ≡ flag word.entry.now }
    ensures local { result.global ≡ false }
{
    option(alloc, word, help).action(ArgAction::SetTrue)
}

fn option<'a>(alloc: Global, word: &'a str, help: &'a str) -> Arg<'a>
    ensures rule { rule_of result ≡ option word.entry.now }
    ensures local { result.global ≡ false }
{
    Arg::new(alloc, word).long(long_word(word)).help(help)
}

// Returns the name of an option without its hyphens.
fn long_word(word: &str) -> &str
    ensures { result.now ≡ long_word word.now }
{
    word.strip_prefix("--").unwrap_or(word)
}

// Returns a positional argument that is not empty.
fn place<'a>(alloc: Global, name: &'a str, help: &'a str) -> Arg<'a>
    ensures rule { rule_of result ≡ place name.entry.now }
    ensures local { result.global ≡ false }
{
    Arg::new(alloc, name)
        .value_parser(ValueParser::NonEmptyString)
        .help(help)
}
