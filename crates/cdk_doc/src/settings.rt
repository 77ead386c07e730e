// Settings laid over the context of an application's root.
ghost use Rattle.cdk_language.specs.Construct.{app_view};
ghost use Rattle.cdk_doc.specs.Answers.{SettingsAnswer, LaidAnswer};

use cdk_base::{Fault, Setting};
use cdk_language::App;
use cdk_settings::lay_settings;
use std::alloc::Global;

fn lay_over_root(alloc: Global, app: &mut App, settings: &[Setting]) -> Result<(), Fault>
    ensures { LaidAnswer result (app_view app.old) (app_view app.new) settings.now }
{
    lay_settings(alloc, &mut app.root.context, settings)?;
    Ok(())
}

/// The application with the settings laid over its root's context, in their order: of two with one key the later
/// counts. Its faults are `LiteralMarker` at `=` and the key of the first setting whose key or value holds the
/// beginning of a token's marker, and want of memory; the application is dropped then.
pub fn with_settings(alloc: Global, app: App, settings: &[Setting]) -> Result<App, Fault>
    ensures { SettingsAnswer result (app_view app) settings.now }
{
    let mut app = app;
    match lay_over_root(alloc, &mut app, settings) {
        Ok(()) => Ok(app),
        Err(fault) => {
            drop(app);
            Err(fault)
        }
    }
}
