//! Answers a script with its output.
ghost use Rattle.std.specs.Prelude.{◌≡◌, ◌≢◌, Err, map, IfOk, IsErrOf, string_bytes};
ghost use Rattle.http_cache_policy.specs.RunStops.{RefusesStep, HasUndatedStep, LosesTarget, StopsFor};
ghost use Rattle.cache_script.specs.Steps.{script_step_seen};
ghost use Rattle.cache_script.specs.Script.{script_seen, start_of, IsNoScript};
ghost use Rattle.cache_script.specs.Output.{IsOutput, IsAnswered, IsRefusedScript};

use crate::error::ScriptError;
use crate::lines::lines_of;
use crate::read::{Script, script_from_bytes};
use crate::unread::UnreadScript;
use http_cache_fields::CacheError;
use http_cache_policy::policy::CachePolicy;
use http_cache_policy::run::replay;
use std::alloc::Global;

fn text_of(alloc: Global, policy: &CachePolicy, script: &Script) -> Result<String, CacheError>
    requires { policy.now ≡ start_of (script_seen script.now) }
    ensures text { IfOk result (λ text. IsOutput (script_seen script.now) (string_bytes text)) }
    ensures full { IsErrOf result CacheError.HeaderMapFull
        → StopsFor RefusesStep policy.now (map script_step_seen script.now.steps.items) }
    ensures unprintable { IsErrOf result CacheError.DateNotPrintable
        → StopsFor HasUndatedStep policy.now (map script_step_seen script.now.steps.items) }
    ensures malformed { IsErrOf result CacheError.Malformed
        → StopsFor LosesTarget policy.now (map script_step_seen script.now.steps.items) }
{
    let outcomes = replay(alloc, policy, script.steps.as_slice())?;
    Ok(lines_of(alloc, policy, script.received, outcomes.as_slice())?)
}

fn output(alloc: Global, script: &Script) -> Result<String, CacheError>
    ensures text { IfOk result (λ text. IsOutput (script_seen script.now) (string_bytes text)) }
    ensures full { IsErrOf result CacheError.HeaderMapFull → StopsFor RefusesStep
        (start_of (script_seen script.now)) (map script_step_seen script.now.steps.items) }
    ensures unprintable { IsErrOf result CacheError.DateNotPrintable → StopsFor HasUndatedStep
        (start_of (script_seen script.now)) (map script_step_seen script.now.steps.items) }
    ensures malformed { IsErrOf result CacheError.Malformed → StopsFor LosesTarget
        (start_of (script_seen script.now)) (map script_step_seen script.now.steps.items) }
{
    let policy = script.policy(alloc)?;
    text_of(alloc, &policy, script)
}

/// Returns the output of the script in the bytes.
pub fn answer(alloc: Global, bytes: &[u8]) -> Result<String, ScriptError>
    ensures found { IfOk result (λ text. IsAnswered bytes.now (string_bytes text)) }
    ensures none { IsErrOf result ScriptError.NotReadable → IsNoScript bytes.now }
    ensures full { IsErrOf result (ScriptError.Cache CacheError.HeaderMapFull)
        → IsRefusedScript RefusesStep bytes.now }
    ensures unprintable { IsErrOf result (ScriptError.Cache CacheError.DateNotPrintable)
        → IsRefusedScript HasUndatedStep bytes.now }
    ensures malformed { IsErrOf result (ScriptError.Cache CacheError.Malformed)
        → IsRefusedScript LosesTarget bytes.now }
    ensures not_written { result ≢ Err ScriptError.NotWritten }
{
    let script = match script_from_bytes(alloc, bytes) {
        Ok(script) => script,
        Err(UnreadScript::Memory) => return Err(ScriptError::Cache(CacheError::Memory)),
        Err(UnreadScript::NoScript) => return Err(ScriptError::NotReadable),
    };
    match output(alloc, &script) {
        Ok(text) => Ok(text),
        Err(e) => Err(ScriptError::Cache(e)),
    }
}
