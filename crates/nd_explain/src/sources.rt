//! What a fault is about, as the command line names it.

use std::fmt;

/// What is read or written.
#[derive(Clone, Copy, Debug)]
pub enum Source<'a> {
    /// Standard input.
    Input,
    /// Standard output.
    Output,
    /// The name that `path` is given.
    Name,
    /// What an option is given, by the option's name.
    Value(&'a str),
    /// The file that an option names.
    File {
        /// The option's name.
        option: &'a str,
        /// The file's name.
        name: &'a str,
    },
}

impl fmt::Display for Source<'_> {
    fn fmt<W: fmt::Write>(&self, f: &mut fmt::Formatter<W>) -> fmt::Result {
        match self {
            Source::Input => write!(f, "standard input"),
            Source::Output => write!(f, "standard output"),
            Source::Name => write!(f, "NAME"),
            Source::Value(option) => write!(f, "--{option}"),
            Source::File { option, name } => write!(f, "--{option}, file {name}"),
        }
    }
}
