//! The words of a companion's command line as a table, and the one place that hands them to `clap`.

use clap::builder::ValueParser;
use clap::{Arg, ArgAction, Command, value_parser};
use std::alloc::{AllocError, Global};

/// The kind of a word, and which values it takes.
#[derive(Clone, Copy)]
pub enum Kind {
    /// A value that has to be there, by its position.
    Placed,
    /// A number of 64 bits that has to be there, by its position.
    PlacedNumber,
    /// A value that may be left out, by its position.
    MayBePlaced,
    /// An option that has to be there; its value is any text.
    Needed,
    /// An option that may be left out; its value is any text.
    Text,
    /// An option that may be left out; its value is a number of 64 bits.
    Number,
    /// An option that may be left out; its value is a number from 1 to 4,294,967,295.
    Positive,
    /// An option that may be left out; its value is one of these.
    Choice(&'static [&'static str]),
    /// An option without a value.
    Flag,
}

/// A word of the command line.
#[derive(Clone, Copy)]
pub struct Word {
    /// The command that it belongs to; empty if the companion has no commands.
    pub command: &'static str,
    /// Its kind.
    pub kind: Kind,
    /// Its name, without the dashes of an option.
    pub name: &'static str,
    /// What the help calls an option's value.
    pub value: &'static str,
    /// Its value if it is left out; empty for none.
    pub default: &'static str,
    /// The options that it can't be given with.
    pub against: &'static [&'static str],
    /// What the help says of it.
    pub help: &'static str,
}

/// A command of a companion, and what it is for.
#[derive(Clone, Copy)]
pub struct About {
    /// Its name.
    pub name: &'static str,
    /// What the help says of it.
    pub text: &'static str,
}

/// A companion's command line, whole.
#[derive(Clone, Copy)]
pub struct Program {
    /// The name that messages and the help begin with.
    pub name: &'static str,
    /// What the help says first.
    pub about: &'static str,
    /// Its commands, in the help's order; none if its words follow its name.
    pub commands: &'static [About],
    /// The words of all commands. Those of one command are in the help's order.
    pub words: &'static [Word],
    /// Whether it prints its help if there are no words.
    pub needs_words: bool,
    /// What the help says last.
    pub after: &'static str,
}

/// Makes a table of words. Of each it takes the command, kind, name, value, default and help; with `against` in front of
/// the help also the options that it can't be given with.
#[macro_export]
macro_rules! words {
    ($($command:literal $kind:expr, $name:literal $value:literal $default:literal $(against $against:expr,)? $help:literal;)*) => {
        [$($crate::Word {
            command: $command,
            kind: $kind,
            name: $name,
            value: $value,
            default: $default,
            against: $crate::against!($($against)?),
            help: $help,
        },)*]
    };
}

/// The options that a word can't be given with, or none.
#[macro_export]
macro_rules! against {
    () => {
        &[]
    };
    ($against:expr) => {
        $against
    };
}

/// A word as `clap` takes it, except its default and what it is against.
fn plain<'a>(alloc: Global, word: &Word) -> Arg<'a> {
    let named = Arg::new(alloc, word.name).help(word.help);
    let option = match word.kind {
        Kind::Placed | Kind::PlacedNumber | Kind::MayBePlaced => named,
        _ => named.long(word.name),
    };
    let valued = match word.kind {
        Kind::Flag => option.action(ArgAction::SetTrue),
        _ => option.action(ArgAction::Set),
    };
    let shown = if word.value.is_empty() {
        valued
    } else {
        valued.value_name(word.value)
    };
    match word.kind {
        Kind::Placed | Kind::Needed => shown.required(true),
        Kind::PlacedNumber => shown.required(true).value_parser(value_parser!(u64)),
        Kind::Number => shown.value_parser(value_parser!(u64)),
        Kind::Positive => shown.value_parser(ValueParser::Signed(1, 4_294_967_295)),
        Kind::Choice(values) => shown.value_parser(values),
        Kind::MayBePlaced | Kind::Text | Kind::Flag => shown,
    }
}

/// A word as `clap` takes it.
fn argument<'a>(alloc: Global, word: &Word) -> Result<Arg<'a>, AllocError> {
    let plain = plain(alloc, word).conflicts_with_all(word.against)?;
    Ok(if word.default.is_empty() {
        plain
    } else {
        plain.default_value(word.default)
    })
}

/// The words of a command.
fn arguments<'a>(alloc: Global, words: &[Word], command: &str) -> Result<Vec<Arg<'a>>, AllocError> {
    let mut list = Vec::new(alloc);
    for word in words {
        if word.command == command {
            list.push(argument(alloc, word)?)?;
        }
    }
    Ok(list)
}

/// The commands with their words.
fn subcommands<'a>(alloc: Global, program: &Program) -> Result<Vec<Command<'a>>, AllocError> {
    let mut list = Vec::new(alloc);
    for about in program.commands {
        let words = arguments(alloc, program.words, about.name)?;
        list.push(
            Command::new(alloc, about.name)
                .about(about.text)
                .args(words)?,
        )?;
    }
    Ok(list)
}

/// The command line as `clap` reads it.
pub fn command<'a>(alloc: Global, program: &Program) -> Result<Command<'a>, AllocError> {
    let words = arguments(alloc, program.words, "")?;
    let commands = subcommands(alloc, program)?;
    Command::new(alloc, program.name)
        .about(program.about)
        .subcommand_required(!program.commands.is_empty())
        .arg_required_else_help(program.needs_words)
        .after_help(program.after)
        .args(words)?
        .subcommands(commands)?
        .bin_name(program.name)
}
