//! How a command is made of what is said of it and of its arguments.

use clap::{Arg, ArgAction, Command};
use std::alloc::{AllocError, Global};

// What is said of a subcommand.
#[derive(Clone, Copy)]
pub(crate) struct CommandText {
    pub(crate) name: &'static str,
    pub(crate) about: &'static str,
    // What its help tells behind its arguments.
    pub(crate) help: &'static str,
    // What its usage is, where it is not that of its arguments.
    pub(crate) usage: Option<&'static str>,
    // In the order of the help.
    pub(crate) arguments: &'static [ArgumentText],
}

// What is said of an argument.
#[derive(Clone, Copy)]
pub(crate) struct ArgumentText {
    pub(crate) name: &'static str,
    pub(crate) help: &'static str,
    // Whether it is given by its name, as --name, and not by its place.
    pub(crate) is_option: bool,
    pub(crate) action: ArgAction,
    // What the help calls its values: the most that it takes.
    pub(crate) values: &'static [&'static str],
    // The fewest values that it takes.
    pub(crate) fewest: usize,
    pub(crate) is_required: bool,
    // The arguments that it is not taken without.
    pub(crate) needs: &'static [&'static str],
    // The arguments that it is not taken with.
    pub(crate) excludes: &'static [&'static str],
}

// An option with no value.
pub(crate) const FLAG: ArgumentText = ArgumentText {
    name: "",
    help: "",
    is_option: true,
    action: ArgAction::SetTrue,
    values: &[],
    fewest: 0,
    is_required: false,
    needs: &[],
    excludes: &[],
};

// An option with a value.
pub(crate) const OPTION: ArgumentText = ArgumentText {
    action: ArgAction::Set,
    fewest: 1,
    ..FLAG
};

// A word that may be left out.
pub(crate) const WORD: ArgumentText = ArgumentText {
    is_option: false,
    ..OPTION
};

// Makes a command, with its arguments in their order.
pub(crate) fn command_by<'a>(alloc: Global, text: CommandText) -> Result<Command<'a>, AllocError> {
    let arguments = arguments_by(alloc, text.arguments)?;
    let command = Command::new(alloc, text.name)
        .about(text.about)
        .after_long_help(text.help);
    match text.usage {
        Some(usage) => command.override_usage(usage).args(arguments),
        None => command.args(arguments),
    }
}

// Makes arguments, in their order.
fn arguments_by<'a>(alloc: Global, texts: &[ArgumentText]) -> Result<Vec<Arg<'a>>, AllocError> {
    let mut arguments = Vec::new(alloc);
    for text in texts {
        arguments.push(argument_by(alloc, *text)?)?;
    }
    Ok(arguments)
}

// Makes an argument.
fn argument_by<'a>(alloc: Global, text: ArgumentText) -> Result<Arg<'a>, AllocError> {
    named(alloc, text)
        .help(text.help)
        .action(text.action)
        .num_args(text.fewest..=text.values.len())
        .value_names(text.values)
        .required(text.is_required)
        .requires_all(text.needs)?
        .conflicts_with_all(text.excludes)
}

// Makes an argument of a name, which an option is given by.
fn named<'a>(alloc: Global, text: ArgumentText) -> Arg<'a> {
    let argument = Arg::new(alloc, text.name);
    if text.is_option {
        argument.long(text.name)
    } else {
        argument
    }
}
