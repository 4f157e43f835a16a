//! Makes a shell complete the program's words.
use crate::usage::{Usage, commands};
use crate::words::Word;
use std::io;
use std::io::Write;

#[derive(Clone, Copy, Debug)]
pub enum Shell {
    /// GNU bash.
    Bash,
    /// zsh, which takes the commands of bash by its `bashcompinit`.
    Zsh,
    /// fish.
    Fish,
}

impl Shell {
    pub fn named(name: &str) -> Option<Shell> {
        match name {
            "bash" => Some(Shell::Bash),
            "zsh" => Some(Shell::Zsh),
            "fish" => Some(Shell::Fish),
            _ => None,
        }
    }
}

/// Writes shell commands that complete the program's commands and their options; any other word is a file. No help text has a double quote,
/// a dollar sign or a backslash.
///
/// # Errors
///
/// They could not be written.
pub fn write_completions<W: Write>(shell: Shell, out: &mut W) -> io::Result<()> {
    match shell {
        Shell::Bash => write_bash(out),
        Shell::Zsh => {
            writeln!(out, "autoload -U +X bashcompinit && bashcompinit")?;
            write_bash(out)
        }
        Shell::Fish => write_fish(out),
    }
}

/// The front of bash's function, up to the commands.
const BASH_BEGINS: &str = "\
_jbench() {
    local last=${COMP_WORDS[COMP_CWORD]} list=
    case $COMP_CWORD,${COMP_WORDS[1]},$last in
    1,*) list='--help --version help";

/// The end of bash's function, after the options.
const BASH_ENDS: &str = "    2,completions,*) list='bash zsh fish' ;;
    esac
    COMPREPLY=($(compgen -W \"$list\" -- \"$last\"))
}
complete -o default -F _jbench jbench
";

/// Writes a function of bash. It gets the words so far, and uses the last one, its place, and the command.
fn write_bash<W: Write>(out: &mut W) -> io::Result<()> {
    write!(out, "{BASH_BEGINS}")?;
    write_names(out)?;
    for usage in &commands() {
        write_bash_command(usage, out)?;
    }
    write!(out, "{BASH_ENDS}")
}

/// Writes the commands' names, which end the line that `BASH_BEGINS` begins.
fn write_names<W: Write>(out: &mut W) -> io::Result<()> {
    for usage in &commands() {
        write!(out, " {}", usage.name)?;
    }
    writeln!(out, "' ;;")
}

/// Writes a command's options for bash.
fn write_bash_command<W: Write>(usage: &Usage, out: &mut W) -> io::Result<()> {
    write!(out, "    *,{},-*) list='--help", usage.name)?;
    for word in usage.words {
        if word.is_option {
            write!(out, " --{}", word.name)?;
        }
    }
    writeln!(out, "' ;;")
}

/// The front of fish's commands, up to the program's commands.
const FISH_BEGINS: &str = "\
complete -c jbench -l help -d \"Print help\"
complete -c jbench -n __fish_use_subcommand -f -a help -d \"Print help of a command\"
";

/// The end of fish's commands, after the program's commands.
const FISH_ENDS: &str = "\
complete -c jbench -n \"__fish_seen_subcommand_from completions\" -f -a \"bash zsh fish\"
";

fn write_fish<W: Write>(out: &mut W) -> io::Result<()> {
    write!(out, "{FISH_BEGINS}")?;
    for usage in &commands() {
        write_fish_command(usage, out)?;
    }
    write!(out, "{FISH_ENDS}")
}

/// Writes a command's help and options for fish.
fn write_fish_command<W: Write>(usage: &Usage, out: &mut W) -> io::Result<()> {
    let Usage { name, about, .. } = usage;
    writeln!(
        out,
        "complete -c jbench -n __fish_use_subcommand -f -a {name} -d \"{about}\""
    )?;
    for word in usage.words {
        if word.is_option {
            write_fish_option(usage.name, word, out)?;
        }
    }
    Ok(())
}

/// Writes an option of a command for fish.
fn write_fish_option<W: Write>(command: &str, word: &Word, out: &mut W) -> io::Result<()> {
    let takes = if word.value.is_empty() { "" } else { " -r" };
    writeln!(
        out,
        "complete -c jbench -n \"__fish_seen_subcommand_from {command}\" -l {}{takes} -d \"{}\"",
        word.name, word.help
    )
}
