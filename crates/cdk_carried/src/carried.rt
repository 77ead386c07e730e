// What is asked of an application as a whole.
ghost use Rattle.std.specs.Prelude.{◌≡◌};
ghost use Rattle.cdk_language.specs.Construct.{app_view};
ghost use Rattle.cdk_carried.specs.Carried.{is_carried as spec_is_carried};

use crate::parts::has_carried_parts;
use crate::stacks::stacks;
use cdk_language::App;

/// Whether the application is of the part of the language that is carried so far (own): one stack at most, in any
/// groups, and within it the whole language but for names of exports. So no stage, no aspects or `dependsOn` at any
/// construct, and no output with an `exportName`.
pub fn is_carried(app: &App) -> bool
    ensures { result ≡ spec_is_carried (app_view app.now) }
{
    has_carried_parts(&app.root) && stacks(&app.root) <= 1
}
