//! That in a tree of one stack what its expressions mention is there: laws over the definitions of expansion and of meaning.

// What the crates above may rely on: each function stands for the law in its contract, and does nothing but cite another law.
ghost use Rattle.cdk_premises.specs.MentionsLaws.{ApplicationsAreRooted, ConditionsAreClosed, ConditionsAreFree, ElementsStandInTheStack, GuardsAreConditions, OperandsAreReadPlain, OperandsMentionTheirs, ValuesMentionTheirs};

use cdk_graphs::loops_are_found;

/// The law that each element of a tree of one stack stands in that stack.
pub fn elements_stand_in_the_stack()
    ensures { ElementsStandInTheStack }
{}

/// The law that what the value of a resource, an output or a lazy mentions is there: a `Ref`'s target is a parameter or resource
/// of the stack, that of `Fn::GetAtt` a resource, the condition of `Fn::If` and the mapping of `Fn::FindInMap` are the stack's,
/// and no export of the tree's own has the name of an import.
pub fn values_mention_theirs()
    ensures { ValuesMentionTheirs }
{}

/// The law that the conditions of the stack name conditions of the stack.
pub fn conditions_are_closed()
    ensures { ConditionsAreClosed }
{}

/// The law that operands of conditions mention parameters and mappings of the stack alone, where they have the forms that
/// operands may have.
pub fn operands_mention_theirs()
    ensures { OperandsMentionTheirs }
{}

/// The law that no condition of the stack reaches itself by names, where no cycle was found.
pub fn conditions_are_free()
    ensures { ConditionsAreFree }
{
    loops_are_found();
}

/// The law that the condition of a resource or output is found, and is a condition of the stack.
pub fn guards_are_conditions()
    ensures { GuardsAreConditions }
{}

/// The law that the root of an application that is read is nothing but the root.
pub fn applications_are_rooted()
    ensures { ApplicationsAreRooted }
{}

/// The law that in an application that is read without a finding operands of conditions have the forms that they may have.
pub fn operands_are_read_plain()
    ensures { OperandsAreReadPlain }
{}
