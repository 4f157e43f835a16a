//! The program and its commands as `clap` has them.
use crate::usage::{PROGRAM, Usage, commands, usage_named};
use crate::words::Word;
use clap::{Arg, ArgAction, Command};
use std::alloc::{AllocError, Global};

pub(crate) const VERSION: &str = "0.1.0";

/// A value without an option name.
fn bare_arg<'a>(alloc: Global, word: &Word) -> Arg<'a> {
    Arg::new(alloc, word.name)
        .value_name(word.value)
        .help(word.help)
}

/// A flag takes no value.
fn flag<'a>(alloc: Global, word: &Word) -> Arg<'a> {
    Arg::new(alloc, word.name)
        .long(word.name)
        .help(word.help)
        .action(ArgAction::SetTrue)
}

fn arg_of<'a>(alloc: Global, word: &Word) -> Arg<'a> {
    if word.value.is_empty() {
        flag(alloc, word)
    } else if word.is_option {
        bare_arg(alloc, word).long(word.name)
    } else {
        bare_arg(alloc, word).required(true)
    }
}

/// A command without arguments.
fn bare_command<'a>(alloc: Global, usage: &Usage) -> Command<'a> {
    Command::new(alloc, usage.name)
        .about(usage.about)
        .after_help(usage.after_help)
}

fn args_of<'a>(alloc: Global, words: &[Word]) -> Result<Vec<Arg<'a>>, AllocError> {
    let mut args = Vec::new(alloc);
    for word in words {
        args.push(arg_of(alloc, word))?;
    }
    Ok(args)
}

fn command_of<'a>(alloc: Global, usage: &Usage) -> Result<Command<'a>, AllocError> {
    bare_command(alloc, usage).args(args_of(alloc, usage.words)?)
}

fn all_commands<'a>(alloc: Global) -> Result<Vec<Command<'a>>, AllocError> {
    let mut all = Vec::new(alloc);
    for usage in &commands() {
        all.push(command_of(alloc, usage)?)?;
    }
    Ok(all)
}

fn program_with<'a>(alloc: Global, commands: Vec<Command<'a>>) -> Result<Command<'a>, AllocError> {
    bare_command(alloc, &PROGRAM)
        .version(VERSION)
        .subcommand_required(true)
        .bin_name("jbench")?
        .subcommands(commands)
}

/// The whole program.
///
/// # Errors
///
/// Memory ran out.
pub fn program<'a>(alloc: Global) -> Result<Command<'a>, AllocError> {
    program_with(alloc, all_commands(alloc)?)
}

/// A command as its own program.
fn alone<'a>(alloc: Global, usage: &Usage) -> Result<Command<'a>, AllocError> {
    let called = format!(in alloc; "jbench {}", usage.name)?;
    command_of(alloc, usage)?.bin_name(&called)
}

/// The command of this name as its own program, or the whole program if there is none.
///
/// # Errors
///
/// Memory ran out.
pub fn command_named<'a>(alloc: Global, name: &str) -> Result<Command<'a>, AllocError> {
    match usage_named(name) {
        Some(usage) => alone(alloc, usage),
        None => program(alloc),
    }
}
