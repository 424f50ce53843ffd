//! The program's commands, as `clap` reads them and prints their help. Each is a row of a table:
//! those at which gates are answered in `gates`, those that read a journal alone in `audits`.

mod audits;
mod gates;

use self::audits::{BALANCES, HISTORY, STATEMENT, VERIFY};
use self::gates::{CHECK, MIGRATE, REPLAY, SERVE};
use crate::number::{WrongNumber, wrong_value};
use clap::{Arg, ArgAction, ArgMatches, Command, Error};
use program_options::{VERSION, flag, option};
use std::alloc::{AllocError, Global};

/// The program's name in its help, whatever file it is started from.
const NAME: &str = "bovtrila";

/// What the program does.
const ABOUT: &str = "Answers the touches of Oyster pay as you go";

/// The commands, in the order of the help.
const COMMANDS: [Described; 8] = [
    REPLAY, CHECK, SERVE, MIGRATE, VERIFY, HISTORY, BALANCES, STATEMENT,
];

/// A command, as it is described.
struct Described {
    /// Its name.
    name: &'static str,
    /// What it does.
    about: &'static str,
    /// How it is used, where the line that `clap` writes isn't taken.
    usage: Option<&'static str>,
    /// How it is called, and how it ends.
    example: &'static str,
    /// What stands behind its name, in the order of the help.
    parameters: &'static [Parameter],
}

/// What may stand behind a command's name.
struct Parameter {
    /// Its name.
    name: &'static str,
    /// What it is for.
    help: &'static str,
    /// What stands behind its name.
    takes: Takes,
    /// When it has to stand there.
    rule: Rule,
}

/// What stands behind a parameter's name.
enum Takes {
    /// Nothing.
    Flag,
    /// A text, with its name in the help.
    Text(&'static str),
    /// Two texts, with their names in the help.
    Pair(&'static [&'static str]),
    /// Three texts, with their names in the help.
    Three(&'static [&'static str]),
    /// One of these words, with its name in the help.
    Word(&'static str, &'static [&'static str]),
    /// A number from 1 to a limit, with its name in the help.
    Number(&'static str, u32),
    /// The files of further fare tables, which are a command's last words.
    Revisions,
}

/// When a parameter has to stand there.
enum Rule {
    /// Always.
    Required,
    /// Where none of the parameters of these names stands.
    Unless(&'static [&'static str]),
    /// Never.
    Optional,
    /// Never, and it may not stand beside the parameters of these names.
    Without(&'static [&'static str]),
    /// Never, and where it stands the parameter of this name has to.
    With(&'static str),
}

/// The command line of the program.
pub(crate) fn command<'a>(alloc: Global) -> Result<Command<'a>, Error> {
    let mut command = Command::new(alloc, NAME)
        .bin_name(NAME)?
        .version(VERSION)
        .about(ABOUT)
        .subcommand_required(true);
    for described in &COMMANDS {
        command = with_command(alloc, command, described)?;
    }
    Ok(command)
}

/// The command of this name by itself, as it is told of; without one the program's command line.
pub(crate) fn command_named<'a>(alloc: Global, name: &str) -> Result<Command<'a>, Error> {
    for described in &COMMANDS {
        if described.name == name {
            let told = format!(in alloc; "{NAME} {name}")?;
            return Ok(command_of(alloc, described)?.bin_name(&told)?);
        }
    }
    command(alloc)
}

/// The first option of the command of this name that has another value than its number.
pub(crate) fn wrong_number<'a>(name: &str, matches: &ArgMatches<'a>) -> Option<WrongNumber<'a>> {
    for described in &COMMANDS {
        if described.name == name {
            return wrong_among(described.parameters, matches);
        }
    }
    None
}

/// The first of these parameters that has another value than its number.
fn wrong_among<'a>(
    parameters: &'static [Parameter],
    matches: &ArgMatches<'a>,
) -> Option<WrongNumber<'a>> {
    for parameter in parameters {
        if let Takes::Number(value, most) = parameter.takes {
            if let Some(text) = wrong_value(matches, parameter.name, most) {
                return Some(WrongNumber {
                    option: parameter.name,
                    value,
                    text,
                    most,
                });
            }
        }
    }
    None
}

/// The command line with a command.
fn with_command<'a>(
    alloc: Global,
    command: Command<'a>,
    described: &Described,
) -> Result<Command<'a>, AllocError> {
    command.subcommand(command_of(alloc, described)?)
}

/// The command that is described so.
fn command_of<'a>(alloc: Global, described: &Described) -> Result<Command<'a>, AllocError> {
    let mut command = Command::new(alloc, described.name)
        .about(described.about)
        .after_help(described.example);
    if let Some(usage) = described.usage {
        command = command.override_usage(usage);
    }
    for parameter in described.parameters {
        command = with_parameter(alloc, command, parameter)?;
    }
    Ok(command)
}

/// The command with a parameter.
fn with_parameter<'a>(
    alloc: Global,
    command: Command<'a>,
    parameter: &Parameter,
) -> Result<Command<'a>, AllocError> {
    command.arg(arg_of(alloc, parameter)?)
}

/// The parameter that is described so.
fn arg_of<'a>(alloc: Global, parameter: &Parameter) -> Result<Arg<'a>, AllocError> {
    let arg = taking(alloc, parameter).help(parameter.help);
    match parameter.rule {
        Rule::Required => Ok(arg.required(true)),
        Rule::Unless(others) => arg.required_unless_present_any(others),
        Rule::Optional => Ok(arg),
        Rule::Without(others) => arg.conflicts_with_all(others),
        Rule::With(other) => arg.requires_arg(other),
    }
}

/// A parameter that takes what this one does.
fn taking<'a>(alloc: Global, parameter: &Parameter) -> Arg<'a> {
    let name = parameter.name;
    match parameter.takes {
        Takes::Flag => flag(alloc, name),
        Takes::Text(value) => option(alloc, name).value_name(value),
        Takes::Pair(values) => option(alloc, name).num_args(2).value_names(values),
        Takes::Three(values) => option(alloc, name).num_args(3).value_names(values),
        Takes::Word(value, words) => option(alloc, name).value_name(value).value_parser(words),
        Takes::Number(value, _) => option(alloc, name).value_name(value),
        Takes::Revisions => revisions(alloc, name),
    }
}

/// The files of further fare tables, as the last words of a command.
fn revisions<'a>(alloc: Global, name: &'a str) -> Arg<'a> {
    Arg::new(alloc, name)
        .value_name("REVISION")
        .num_args(..)
        .action(ArgAction::Append)
}
