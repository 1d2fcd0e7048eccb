//! Reads the command line and its settings.
use http_cache_frames::Longest;
use http_cache_memory_store::Limits;
use std::alloc::{AllocError, Global};
use std::env::Args;

/// The settings of the process.
#[derive(Drop)]
pub struct Settings {
    /// The directory in which responses are stored. Without one they are stored in memory.
    pub dir: Option<String>,
    /// Whether each change in the directory waits until it outlives a power failure.
    pub is_synced: bool,
    /// Whether the cache is private.
    pub is_private: bool,
    /// Whether the caller is an intermediary, such as a proxy (RFC 9110, section 3.7).
    pub is_proxy: bool,
    /// The name of the cache in Cache-Status and Via.
    pub name: String,
    /// The limits of what is stored.
    pub limits: Limits,
    /// The greatest lengths of a frame's head and body.
    pub longest: Longest,
    /// The greatest number of requests under way.
    pub requests: usize,
}

impl Settings {
    fn new(alloc: Global) -> Result<Settings, AllocError> {
        Ok(Settings {
            dir: None,
            is_synced: false,
            is_private: false,
            is_proxy: false,
            name: String::from_str(alloc, "cacheserve")?,
            limits: Limits::default(),
            longest: Longest {
                head: 65_536,
                body: 67_108_864,
            },
            requests: 10_000,
        })
    }

    // Applies an option with a number. Returns None if the option is unknown or the number doesn't
    // fit.
    fn set_number(&mut self, word: &str, number: u64) -> Option<()> {
        match word {
            "--responses" => self.limits.responses = usize::try_from(number).ok()?,
            "--variants" => self.limits.variants = usize::try_from(number).ok()?,
            "--requests" => self.requests = usize::try_from(number).ok()?,
            "--bytes" => self.limits.bytes = number,
            "--stored-body" => self.limits.body = number,
            "--head" => self.longest.head = number,
            "--body" => self.longest.body = number,
            _ => return None,
        }
        Some(())
    }

    fn set(&mut self, word: &str, value: String) -> Option<()> {
        match word {
            "--name" => {
                self.name = value;
                Some(())
            }
            "--dir" => {
                self.dir = Some(value);
                Some(())
            }
            _ => self.set_number(word, value.as_str().parse::<u64>().ok()?),
        }
    }

    // Applies an option without a value, and returns whether it is known.
    fn set_flag(&mut self, word: &str) -> bool {
        match word {
            "--private" => self.is_private = true,
            "--proxy" => self.is_proxy = true,
            "--sync" => self.is_synced = true,
            _ => return false,
        }
        true
    }
}

/// What a command line asks for.
#[derive(Drop)]
pub enum Command {
    /// The text of `--help`.
    Help,
    /// The version of the program.
    Version,
    /// A process with these settings.
    Serve(Settings),
}

/// Returns what a command line asks for, or `None` if a word is unknown. The first word is the
/// program.
pub fn command_of(alloc: Global, words: Args) -> Result<Option<Command>, AllocError> {
    let mut settings = Settings::new(alloc)?;
    let mut option: Option<String> = None;
    for word in words.skip(1) {
        if let Some(name) = option.take() {
            if settings.set(name.as_str(), word).is_none() {
                return Ok(None);
            }
        } else if word.as_str() == "--help" {
            return Ok(Some(Command::Help));
        } else if word.as_str() == "--version" {
            return Ok(Some(Command::Version));
        } else if !settings.set_flag(word.as_str()) {
            option = Some(word);
        }
    }
    Ok(if option.is_none() {
        Some(Command::Serve(settings))
    } else {
        None
    })
}
