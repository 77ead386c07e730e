//! How deep rendered values nest, and that what is rendered are the constructs' own expressions: laws over the definitions of
//! each.

// What the crates above may rely on: each function stands for the laws in its contract, and answers nothing.
ghost use Rattle.cdk_premises.specs.RenderedLaws.{ConditionFormsAreOwn, ConditionRenderingsAreOwn, ConditionsFit, ConditionsHaveRoom, ConditionsNeedNoMore, RenderedFits, RenderedHasRoom, RenderingsAreOwn, ValuesFit, ValuesNeedNoMore};

use cdk_graphs::loops_are_found;

/// The law that each level of a plain expression takes three levels of template JSON at most, and that an object or an array
/// takes two fewer: 96 of a depth of 32, and 94 of an object or array.
pub fn rendered_fits()
    ensures levels { RenderedFits }
    ensures room { RenderedHasRoom }
{}

/// The law that each level of a condition does, and that one is left: 95 of a depth of 32.
pub fn conditions_fit()
    ensures levels { ConditionsFit }
    ensures room { ConditionsHaveRoom }
{}

/// The law that in a sound application the plain form of a condition's marked operands is that of the operands themselves.
pub fn condition_forms_are_own()
    ensures { ConditionFormsAreOwn }
{}

/// The law that in a sound application in which nothing reaches itself, lazies need not be opened more often than there are
/// lazies: values and conditions have their own plain forms then.
pub fn forms_need_no_more()
    ensures values { ValuesNeedNoMore }
    ensures conditions { ConditionsNeedNoMore }
{
    loops_are_found();
}

/// The law that what is rendered of a construct's marked value is the template JSON of its own expression.
pub fn renderings_are_own()
    ensures { RenderingsAreOwn }
{
    loops_are_found();
}

/// The law that what is rendered of a condition is the template JSON of the condition itself.
pub fn condition_renderings_are_own()
    ensures { ConditionRenderingsAreOwn }
{
    loops_are_found();
}

/// The law that what a checked application shows in templates nests 96 levels at most, 94 where it is an object or an array,
/// and 95 where it is a condition.
pub fn values_fit()
    ensures { ValuesFit }
{
    loops_are_found();
}
