//! Why a script wasn't answered.
use http_cache_fields::CacheError;
use thiserror::Error;

/// Why a script wasn't answered.
#[derive(Debug, Drop, Error)]
pub enum ScriptError {
    /// The reader failed, or its bytes are no script.
    #[error("script: not readable")]
    NotReadable,
    /// A call of the cache failed.
    #[error("{0}")]
    Cache(CacheError),
    /// The writer failed.
    #[error("output: not written")]
    NotWritten,
}

impl ScriptError {
    ghost use Rattle.std.specs.Prelude.{◌≡◌};
    ghost use Rattle.cache_script.specs.Status.{exit_status_of};

    /// Returns the exit status of a program that ends with the error.
    pub fn status(&self) -> u8
        ensures { result ≡ exit_status_of self.now }
    {
        match self {
            ScriptError::NotReadable => 2,
            ScriptError::Cache(_) => 3,
            ScriptError::NotWritten => 3,
        }
    }
}
