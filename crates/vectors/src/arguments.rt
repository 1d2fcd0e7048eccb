//! Reads the command line.
use std::env::Args;

/// The command of a command line.
#[derive(Drop)]
pub enum Command {
    /// Print the help.
    Help,
    /// Print the version.
    Version,
    /// Replay standard input.
    ReplayInput,
    /// Replay a file.
    ReplayFile(String),
}

/// Returns the command of the words after the program's name, or None if there are two, or an
/// unknown one.
pub fn command_of(words: Args) -> Option<Command> {
    let mut command = Command::ReplayInput;
    for word in words.skip(1) {
        if !matches!(command, Command::ReplayInput) {
            return None;
        }
        command = match word.as_str() {
            "--help" => Command::Help,
            "--version" => Command::Version,
            text if text.starts_with('-') => return None,
            _ => Command::ReplayFile(word),
        };
    }
    Some(command)
}
