//! Runs of scripts, under the program `cachecheck`.
use cache_script::ends::{Sink, Source};
use cache_script::error::ScriptError;
use cache_script::run::run;
use http_cache_semantics::CacheError;
use std::alloc::Global;
use std::fmt::{Debug, Display};

fn is_shown<T: Debug + Display>(_value: &T) {}

fn answered<R: Source, W: Sink>(
    alloc: Global,
    reader: &mut R,
    writer: &mut W,
) -> Result<(), ScriptError> {
    run(alloc, reader, writer)
}

fn cause(e: &ScriptError) -> Option<&CacheError> {
    is_shown(e);
    match e {
        ScriptError::Cache(cause) => Some(cause),
        ScriptError::NotReadable | ScriptError::NotWritten => None,
    }
}

fn status(e: &ScriptError) -> u8 {
    e.status()
}
