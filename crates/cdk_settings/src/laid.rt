// Settings laid over a context.
ghost use Rattle.std.specs.Prelude.{◌≡◌, [], OnOk, MatchOption};
ghost use Rattle.serde_json.specs.View.{members_view};
ghost use Rattle.cdk_language.specs.Application.{laid_over as laid_over_members};
ghost use Rattle.cdk_language.specs.Findings.{setting_findings};
ghost use Rattle.cdk_settings.specs.Answers.{ContextAnswer, IsSettingsFault};

use crate::fault::fault_of;
use crate::marked::first_setting_finding;
use cdk_base::{Fault, Map, Setting, Value};
use std::alloc::{AllocError, Global};

/// The fault of the settings, where they have one.
fn settings_fault(alloc: Global, settings: &[Setting]) -> Option<Fault>
    ensures { MatchOption result (setting_findings settings.now ≡ []) (λ f. IsSettingsFault f settings.now) }
{
    match first_setting_finding(alloc, settings) {
        Err(_) => Some(Fault::Memory),
        Ok(Some(finding)) => Some(fault_of(finding)),
        Ok(None) => None,
    }
}

/// Each setting in order replaces the key's value.
fn lay_over(alloc: Global, context: &mut Map, settings: &[Setting]) -> Result<(), AllocError>
    ensures { OnOk result (members_view context.new.entries ≡ laid_over_members (members_view context.old.entries) settings.now) }
{
    for setting in settings {
        let key = String::from_str(alloc, setting.key.as_str())?;
        let value = String::from_str(alloc, setting.value.as_str())?;
        drop(context.insert(key, Value::String(value))?);
    }
    Ok(())
}

/// Lays the settings over the members of a context, in their order: of two with one key the later counts. Its faults
/// are `LiteralMarker` at `=` and the key of the first setting whose key or value holds the beginning of a token's
/// marker, and want of memory, after which the first of the settings may be laid.
pub fn lay_settings(alloc: Global, context: &mut Map, settings: &[Setting]) -> Result<(), Fault>
    ensures { ContextAnswer result (members_view context.old.entries) (members_view context.new.entries) settings.now }
{
    if let Some(fault) = settings_fault(alloc, settings) {
        return Err(fault);
    }
    match lay_over(alloc, context, settings) {
        Ok(()) => Ok(()),
        Err(_) => Err(Fault::Memory),
    }
}
