//! The command line: the commands, their options, and their help.

use clap::{Arg, ArgAction, Command, value_parser};
use std::alloc::{AllocError, Global};

/// What a word of a command takes.
#[derive(Clone, Copy)]
enum Takes {
    /// It stands for itself, and is called so in the help.
    Itself(&'static str),
    /// No value: it is a flag.
    Nothing,
    /// A value, which is called so in the help and may be any word.
    Value(&'static str),
    /// The same, and this is its value without the option.
    ValueOr(&'static str, &'static str),
    /// The same, where it has to be a number of 16 bits.
    NumberOr(&'static str, &'static str),
}

/// What a word of a command asks of others.
#[derive(Clone, Copy)]
enum Bond {
    /// Nothing.
    Free,
    /// It has to be given.
    Required,
    /// It isn't given together with this one.
    Without(&'static str),
    /// It isn't given without this one.
    With(&'static str),
    /// Just one of it and this one is given.
    Or(&'static str),
}

/// A word of a command: an option, or one that stands for itself.
#[derive(Clone, Copy)]
struct Word {
    name: &'static str,
    takes: Takes,
    bond: Bond,
    help: &'static str,
}

/// A command, and its words in the order of its help.
#[derive(Clone, Copy)]
struct Known {
    name: &'static str,
    about: &'static str,
    words: &'static [&'static [Word]],
}

/// The commands.
const COMMANDS: &[Known] = &[
    Known {
        name: "path",
        about: "Prints the store path of the derivation text on standard input",
        words: &[NAME, EXPLAIN],
    },
    Known {
        name: "ask",
        about: "Writes, per derivation of the bundle, the hook's reply on an idle park",
        words: &[BUNDLE, PARK, EXPLAIN],
    },
    Known {
        name: "sim",
        about: "Does what a script says over the bundle, and writes each step and a report",
        words: &[BUNDLE, PARK, EXPLAIN, SCRIPT],
    },
    Known {
        name: "audit",
        about: "Says whether a history is a legal one over the bundle, and else why not",
        words: &[BUNDLE, PARK, EXPLAIN, HISTORY],
    },
    Known {
        name: "serve",
        about: "Does one command of a script after another as it comes on standard input, and answers each",
        words: &[BUNDLE_FILE, PARK, EXPLAIN, SESSION, RESUME],
    },
    Known {
        name: "run",
        about: "Builds the bundle by agents, or with stand-ins for the machines, and writes the history",
        words: &[BUNDLE, PARK, EXPLAIN, RUN, RESUME],
    },
    Known {
        name: "report",
        about: "Writes the report of the history that a journal tells, also while it is written",
        words: &[BUNDLE, PARK, EXPLAIN, REPORT],
    },
    Known {
        name: "park",
        about: "Writes a line for each slot of the park: machine, slot, URI, key and host key; reads no bundle",
        words: &[PARK, EXPLAIN],
    },
];

/// The name of `path`.
const NAME: &[Word] = &[Word {
    name: "name",
    takes: Takes::Itself("NAME"),
    bond: Bond::Required,
    help: "The name that the derivation is to have, as hello.drv",
}];

/// The bundle, which is read from standard input unless it is in a file.
const BUNDLE: &[Word] = &[Word {
    name: "bundle",
    takes: Takes::Value("FILE"),
    bond: Bond::Free,
    help: "The file that holds the bundle, which else is read from standard input",
}];

/// The bundle, which is in a file.
const BUNDLE_FILE: &[Word] = &[Word {
    name: "bundle",
    takes: Takes::Value("FILE"),
    bond: Bond::Required,
    help: "The file that holds the bundle",
}];

/// The other options of the commands over a bundle: the builders, the local machine, how a bundle is read and what
/// a failure ends, and the references of paths.
const PARK: &[Word] = &[
    Word {
        name: "builders",
        takes: Takes::ValueOr("TEXT", ""),
        bond: Bond::Free,
        help: "The builders list, or @FILE to read it from a file",
    },
    Word {
        name: "system",
        takes: Takes::ValueOr("S", "x86_64-linux"),
        bond: Bond::Free,
        help: "The local system",
    },
    Word {
        name: "extra",
        takes: Takes::ValueOr("LIST", ""),
        bond: Bond::Free,
        help: "Further local systems, between commas",
    },
    Word {
        name: "features",
        takes: Takes::ValueOr("LIST", ""),
        bond: Bond::Free,
        help: "The local features, between commas",
    },
    Word {
        name: "jobs",
        takes: Takes::NumberOr("N", "1"),
        bond: Bond::Free,
        help: "The local jobs, 0 to 65535",
    },
    Word {
        name: "keep-going",
        takes: Takes::Nothing,
        bond: Bond::Free,
        help: "After a failure goes on with what doesn't depend on it",
    },
    Word {
        name: "check-paths",
        takes: Takes::Nothing,
        bond: Bond::Free,
        help: "Refuses a derivation whose path isn't that of its text",
    },
    Word {
        name: "info",
        takes: Takes::Value("FILE"),
        bond: Bond::Free,
        help: "The references of paths: a line for each path, with the paths that it refers to",
    },
];

/// The flag of every command by which a fault is explained.
const EXPLAIN: &[Word] = &[Word {
    name: "explain",
    takes: Takes::Nothing,
    bond: Bond::Free,
    help: "Says behind a fault where it is, what stands there, its cause and its cure",
}];

/// The script of `sim`.
const SCRIPT: &[Word] = &[Word {
    name: "script",
    takes: Takes::Value("FILE"),
    bond: Bond::Required,
    help: "The script: one command a line, as start 0, built 0, fail 0 1, down 0, stop, ask 1",
}];

/// The history of `audit`, or the journal that tells it.
const HISTORY: &[Word] = &[
    Word {
        name: "history",
        takes: Takes::Value("FILE"),
        bond: Bond::Or("journal"),
        help: "The history text that is audited",
    },
    Word {
        name: "journal",
        takes: Takes::Value("FILE"),
        bond: Bond::Free,
        help: "The journal whose whole lines are audited",
    },
];

/// The journal of `report`.
const REPORT: &[Word] = &[Word {
    name: "journal",
    takes: Takes::Value("FILE"),
    bond: Bond::Required,
    help: "The journal whose whole lines tell the history",
}];

/// The journal of `serve`.
const SESSION: &[Word] = &[Word {
    name: "journal",
    takes: Takes::Value("FILE"),
    bond: Bond::Free,
    help: "Where each entry is kept and made durable before it is answered",
}];

/// The flag of what goes on from its journal.
const RESUME: &[Word] = &[Word {
    name: "resume",
    takes: Takes::Nothing,
    bond: Bond::With("journal"),
    help: "Goes on from the history that the journal holds",
}];

/// What `run` builds by, whether it reports, and its journal.
const RUN: &[Word] = &[
    Word {
        name: "stand",
        takes: Takes::Value("FILE"),
        bond: Bond::Free,
        help: "What the stand-ins answer: a line for each rule",
    },
    Word {
        name: "agents",
        takes: Takes::Value("FOLDER"),
        bond: Bond::Without("stand"),
        help: "Builds by agents: the folder of their files M.S.calls and M.S.answers",
    },
    Word {
        name: "report",
        takes: Takes::Nothing,
        bond: Bond::Free,
        help: "Writes the report behind the history",
    },
    Word {
        name: "journal",
        takes: Takes::Value("FILE"),
        bond: Bond::Free,
        help: "Where each entry is kept and made durable before anything is done for it",
    },
];

/// The whole command line.
pub fn command_line<'a>(alloc: Global) -> Result<Command<'a>, AllocError> {
    let mut line = Command::new(alloc, "nix-dispatch")
        .version("0.2.0")
        .bin_name("nix-dispatch")?
        .about("Hands the derivations of a graph to local slots and remote builders")
        .subcommand_required(true);
    for known in COMMANDS {
        line = with_command(line, command_of(alloc, known))?;
    }
    Ok(line)
}

/// The command line with one more command.
fn with_command<'a>(
    line: Command<'a>,
    command: Result<Command<'a>, AllocError>,
) -> Result<Command<'a>, AllocError> {
    match command {
        Ok(command) => line.subcommand(command),
        Err(refused) => {
            drop(line);
            Err(refused)
        }
    }
}

/// A command with its words.
fn command_of<'a>(alloc: Global, known: &Known) -> Result<Command<'a>, AllocError> {
    let mut command = Command::new(alloc, known.name).about(known.about);
    for words in known.words {
        command = with_words(alloc, command, words)?;
    }
    Ok(command)
}

/// A command with these words more.
fn with_words<'a>(
    alloc: Global,
    command: Command<'a>,
    words: &[Word],
) -> Result<Command<'a>, AllocError> {
    let mut command = command;
    for word in words {
        command = with_word(command, arg_of(alloc, word))?;
    }
    Ok(command)
}

/// A command with one more word.
fn with_word<'a>(
    command: Command<'a>,
    word: Result<Arg<'a>, AllocError>,
) -> Result<Command<'a>, AllocError> {
    match word {
        Ok(word) => command.arg(word),
        Err(refused) => {
            drop(command);
            Err(refused)
        }
    }
}

/// A word of a command, with what it asks of others.
fn arg_of<'a>(alloc: Global, word: &Word) -> Result<Arg<'a>, AllocError> {
    let arg = plain_arg(alloc, word);
    match word.bond {
        Bond::Free => Ok(arg),
        Bond::Required => Ok(arg.required(true)),
        Bond::Without(other) => arg.conflicts_with(other),
        Bond::With(other) => arg.requires_arg(other),
        Bond::Or(other) => alone(arg.required_unless_present(other), other),
    }
}

/// A word that isn't given together with this other one.
fn alone<'a>(arg: Result<Arg<'a>, AllocError>, other: &'a str) -> Result<Arg<'a>, AllocError> {
    match arg {
        Ok(arg) => arg.conflicts_with(other),
        Err(refused) => Err(refused),
    }
}

/// A word of a command, with what it takes.
fn plain_arg<'a>(alloc: Global, word: &Word) -> Arg<'a> {
    let arg = Arg::new(alloc, word.name).help(word.help);
    match word.takes {
        Takes::Itself(value) => any_value(arg, value),
        Takes::Nothing => arg.long(word.name).action(ArgAction::SetTrue),
        Takes::Value(value) => any_value(arg, value).long(word.name),
        Takes::ValueOr(value, text) => any_value(arg, value).long(word.name).default_value(text),
        Takes::NumberOr(value, text) => any_value(arg, value)
            .long(word.name)
            .default_value(text)
            .value_parser(value_parser!(u16)),
    }
}

/// A word with a value that is called so in the help and may be any word.
fn any_value<'a>(arg: Arg<'a>, value: &'a str) -> Arg<'a> {
    arg.value_name(value)
        .allow_hyphen_values(true)
        .action(ArgAction::Set)
}
