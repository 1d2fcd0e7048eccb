//! Writes directives as a field line.
ghost use Rattle.std.specs.Prelude.{◌≡◌, [], ◌∷◌, ◌++◌, option_copied, string_bytes, IsTrue, IfOk, OnOk, IsOkUnless};
ghost use Rattle.http_cache_fields.specs.Text.{is_text};
ghost use Rattle.http_cache_fields.specs.Pieces.{pieces};
ghost use Rattle.http_cache_fields.specs.Directives.{directives};
ghost use Rattle.http_cache_fields.specs.Written.{is_bare, written_rest, written_line};

use crate::directives::CacheControl;
use crate::error::CacheError;
use std::alloc::{AllocError, Global};

fn is_bare(value: &str) -> bool
    ensures { result ≡ is_bare value.now }
{
    !value.is_empty() && value.as_bytes().iter().all(|b| b.is_ascii_alphanumeric())
}

fn push_value(line: &mut String, value: Option<&str>) -> Result<(), AllocError>
    ensures { OnOk result (string_bytes line.new
        ≡ string_bytes line.old ++ written_rest (option_copied value.entry)) }
{
    let Some(value) = value else {
        return Ok(());
    };
    line.push('=')?;
    if is_bare(value) {
        line.push_str(value)?;
    } else {
        line.push('"')?;
        line.push_str(value)?;
        line.push('"')?;
    }
    Ok(())
}

/// Returns the line that the directives are written as.
pub(crate) fn written_line(alloc: Global, control: &CacheControl) -> Result<String, AllocError>
    ensures value { IfOk result (λ line. string_bytes line ≡ written_line control.now) }
    ensures reads_back { IfOk result (λ line.
        directives (pieces (string_bytes line ∷ [])) ≡ control.now) }
    ensures text { IfOk result (λ line. IsTrue (is_text (string_bytes line))) }
{
    let mut line = String::new(alloc);
    for i in 0..control.len() {
        let (name, value) = control.entry_at(i).unwrap();
        if i > 0 {
            line.push_str(", ")?;
        }
        line.push_str(name)?;
        push_value(&mut line, value)?;
    }
    Ok(line)
}

/// Returns the directives in order, as one line that reads back as the same directives.
///
/// A value is quoted if it is empty or has other bytes than ASCII letters and digits. The only
/// error is `Memory`.
pub fn format_cache_control(alloc: Global, control: &CacheControl) -> Result<String, CacheError>
    ensures value { IfOk result (λ line. string_bytes line ≡ written_line control.now) }
    ensures reads_back { IfOk result (λ line.
        directives (pieces (string_bytes line ∷ [])) ≡ control.now) }
    ensures text { IfOk result (λ line. IsTrue (is_text (string_bytes line))) }
    ensures only_memory { IsOkUnless result CacheError.Memory }
{
    Ok(written_line(alloc, control)?)
}
