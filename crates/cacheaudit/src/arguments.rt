//! Reads the command line.
use http_cache_findings::change::{Change, ChangeError, change_from_text};
use http_cache_semantics::CacheOptions;
use http_cache_semantics::policy::Fraction;
use http_cache_show::printable::push_plain;
use http_cache_show::run::Form;
use http_cache_show::words::cut;
use http_cache_walk::settings::Settings;
use std::alloc::{AllocError, Global};
use std::env::Args;
use thiserror::Error;

/// What a command line asks for.
#[derive(Drop)]
pub enum Invocation {
    /// The text of `--help`.
    Help,
    /// The version of the program.
    Version,
    /// An audit.
    Audit(Order),
}

/// The options of an audit.
#[derive(Drop)]
pub struct Order {
    /// The form of the report.
    pub form: Form,
    /// Whether the cache serves several users, if that is given.
    pub is_shared: Option<bool>,
    /// The settings of the audit.
    pub settings: Settings,
    /// The changes of headers to try.
    pub changes: Vec<Change>,
    /// The rate of hits, in percent, below which the program ends with a status of its own.
    pub least_rate: Option<u64>,
    /// The file of the recording; standard input if there is none.
    pub file: Option<String>,
}

/// The reason why a command line is refused. Its words are printable.
#[derive(Debug, Drop, Error)]
pub enum Refusal {
    /// An argument is unknown.
    #[error("unknown argument '{0}'; --help lists them")]
    Unknown(String),
    /// An argument is no text.
    #[error("an argument isn't UTF-8; --help lists them")]
    NotText,
    /// Two arguments name a file.
    #[error("a second file: '{0}'")]
    SecondFile(String),
    /// The value of an option is missing.
    #[error("{0}: no value; --help lists them")]
    NoValue(String),
    /// The value of `--heuristic` is no fraction.
    #[error("--heuristic: not a fraction N/D: '{0}'")]
    Heuristic(String),
    /// The value of `--with` is no change of a header.
    #[error("--with: {0}: '{1}'")]
    Change(ChangeError, String),
    /// The value of `--fail-under` is no whole number up to 100.
    #[error("--fail-under: not a whole number from 0 to 100: '{0}'")]
    Rate(String),
    /// Two options exclude each other.
    #[error("{0} and {1} can't be used together")]
    Together(&'static str, &'static str),
    /// There is not enough memory.
    #[error("out of memory")]
    Memory,
}

impl From<AllocError> for Refusal {
    fn from(_e: AllocError) -> Refusal {
        Refusal::Memory
    }
}

// The greatest length of a word that is printed.
const LONGEST: usize = 200;

/// Returns a word as it is printed: cut if it is long, with `?` for each byte that isn't printable.
pub fn shown(alloc: Global, word: &str) -> Result<String, AllocError> {
    let mut out = String::new(alloc);
    push_plain(&mut out, cut(alloc, word, LONGEST)?.as_str())?;
    Ok(out)
}

// Reads a fraction such as `1/10`.
fn fraction_of(text: &str) -> Option<Fraction> {
    let (numerator, denominator) = text.split_once('/')?;
    Fraction::new(numerator.parse().ok()?, denominator.parse().ok()?)
}

fn rate_of(text: &str) -> Option<u64> {
    let rate = text.parse().ok()?;
    if rate <= 100 { Some(rate) } else { None }
}

// Reads a change. The blank after the name of a removed header is optional.
fn change_of(alloc: Global, text: &str) -> Result<Change, Refusal> {
    let end = if text.ends_with(':') { " " } else { "" };
    match change_from_text(alloc, format!(in alloc; "{text}{end}")?.as_str()) {
        Ok(change) => Ok(change),
        Err(ChangeError::Memory) => Err(Refusal::Memory),
        Err(e) => Err(Refusal::Change(e, shown(alloc, text)?)),
    }
}

// Returns whether the value of an option is the next word.
fn has_value(word: &str) -> bool {
    matches!(word, "--heuristic" | "--with" | "--fail-under")
}

fn set_value(alloc: Global, order: &mut Order, option: &str, text: &str) -> Result<(), Refusal> {
    match option {
        "--heuristic" => match fraction_of(text) {
            Some(fraction) => order.settings.options.cache_heuristic = fraction,
            None => return Err(Refusal::Heuristic(shown(alloc, text)?)),
        },
        "--with" => {
            let change = change_of(alloc, text)?;
            if order.changes.push(change).is_err() {
                return Err(Refusal::Memory);
            }
        }
        _ => match rate_of(text) {
            Some(rate) => order.least_rate = Some(rate),
            None => return Err(Refusal::Rate(shown(alloc, text)?)),
        },
    }
    Ok(())
}

// Applies an option without a value, and returns whether it is known.
fn set_flag(order: &mut Order, word: &str) -> bool {
    match word {
        "--private" => order.is_shared = Some(false),
        "--shared" => order.is_shared = Some(true),
        "--json" => order.form = Form::Object,
        "--json-lines" => order.form = Form::JsonLines,
        "--lines" => order.form = Form::Lines,
        "--html" => order.form = Form::Html,
        "--by-url" => order.form = Form::ByUrl,
        "--no-query" => order.settings.hides_queries = true,
        "--ignore-request-no-cache" => order.settings.ignores_no_cache = true,
        _ => return false,
    }
    true
}

// Returns the default audit, of standard input.
fn plain_order(alloc: Global) -> Order {
    Order {
        form: Form::Report,
        is_shared: None,
        settings: Settings {
            options: CacheOptions::default(),
            ignores_no_cache: false,
            hides_queries: false,
        },
        changes: Vec::new(alloc),
        least_rate: None,
        file: None,
    }
}

// By default a report is about a browser's cache, and everything else about a CDN's.
fn is_shared(order: &Order) -> bool {
    match order.is_shared {
        Some(is_shared) => is_shared,
        None => {
            matches!(order.form, Form::Lines | Form::JsonLines | Form::ByUrl)
                || !order.changes.is_empty()
        }
    }
}

// Returns why options exclude each other. A rate counts the requests as recorded, and a change
// affects all of them.
fn conflict_in(order: &Order) -> Option<Refusal> {
    let is_by_url = order.form == Form::ByUrl;
    let is_changed = !order.changes.is_empty();
    match order.least_rate {
        Some(_) if is_by_url => Some(Refusal::Together("--by-url", "--fail-under")),
        Some(_) if is_changed => Some(Refusal::Together("--with", "--fail-under")),
        None if is_by_url && is_changed => Some(Refusal::Together("--by-url", "--with")),
        _ => None,
    }
}

/// Returns what the words after the program's name ask for.
pub fn invocation_of(alloc: Global, words: Args) -> Result<Invocation, Refusal> {
    let mut order = plain_order(alloc);
    let mut waiting: Option<String> = None;
    for word in words.skip(1) {
        let text = word.as_str();
        if let Some(option) = waiting.take() {
            set_value(alloc, &mut order, option.as_str(), text)?;
        } else if text == "--help" {
            return Ok(Invocation::Help);
        } else if text == "--version" {
            return Ok(Invocation::Version);
        } else if has_value(text) {
            waiting = Some(word);
        } else if set_flag(&mut order, text) {
            continue;
        } else if text.starts_with('-') {
            return Err(Refusal::Unknown(shown(alloc, text)?));
        } else if order.file.is_some() {
            return Err(Refusal::SecondFile(shown(alloc, text)?));
        } else {
            order.file = Some(word);
        }
    }
    if let Some(option) = waiting {
        return Err(Refusal::NoValue(option));
    }
    if let Some(refusal) = conflict_in(&order) {
        return Err(refusal);
    }
    order.settings.options.shared = is_shared(&order);
    Ok(Invocation::Audit(order))
}
