// The laws between the meaning of plain expressions and the outcomes of templates.
ghost use Rattle.cdk_meaning.specs.Canonical.{RenderedIsCanonical, RenderedConditionIsCanonical};
ghost use Rattle.cdk_meaning.specs.Agreement.{AgreementIsSeen};
ghost use Rattle.cdk_meaning.specs.Literals.{LiteralsStand, LiteralsAreRendered};
ghost use Rattle.cdk_meaning.specs.Kept.{RenderingKeepsMeaning};
ghost use Rattle.cdk_meaning.specs.ConditionsKept.{ConditionsKeepTruth, TruthIsFixed};
ghost use Rattle.cdk_meaning.specs.Sections.{SectionsHold};
ghost use Rattle.cdk_meaning.specs.StackTemplate.{StacksKeepMeaning};
ghost use Rattle.cdk_meaning.specs.ListsKept.{CuttingUndoesJoining};
ghost use Rattle.cdk_meaning.specs.ReportKept.{ResourcesKeepMeaning, OutputsKeepMeaning};
ghost use Rattle.cdk_meaning.specs.AssemblyKept.{StacksFollow, ImportsStand, AssembliesKeepMeaning};

/// An outcome agrees with a meaning exactly where both are the same once faults are told apart no more.
pub fn agreement_is_seen()
    ensures { AgreementIsSeen }
{}

/// In every template, under all values, the outcome of a literal is the literal: a text, a whole number of 64 bits, a truth
/// value, or an array or object of these without an intrinsic's key.
pub fn literals_stand()
    ensures { LiteralsStand }
{}

/// A literal of the tree is rendered as a literal of the template, and that is what it means.
pub fn literals_are_rendered()
    ensures { LiteralsAreRendered }
{}

/// Where a template's names stand for what the expression mentions, the outcome of the rendered expression agrees with the
/// expression's meaning: for every form, with joins that are spliced and merged, and with parts that are gone.
pub fn rendering_keeps_meaning()
    ensures { RenderingKeepsMeaning }
{}

/// A rendered expression has whole numbers of 64 bits and keys in order, where the expression has: so it reads back from its text.
pub fn rendered_is_canonical()
    ensures { RenderedIsCanonical }
{}

/// The same of a rendered condition.
pub fn rendered_condition_is_canonical()
    ensures { RenderedConditionIsCanonical }
{}

/// In a section that is built of constructs with different names, each is found by its name and no other name is there.
pub fn sections_hold()
    ensures { SectionsHold }
{}

/// The conditions of a stack have in its template the truth that they mean, where they name no others and none reaches itself.
/// From the number of these conditions on, it makes no difference how often names are opened.
pub fn conditions_keep_truth()
    ensures { ConditionsKeepTruth }
{}

/// The truth of such a condition is what its expression means by the truths of those that it names, whatever bound is set to
/// the opening of names, if it is at least their number.
pub fn truth_is_fixed()
    ensures { TruthIsFixed }
{}

/// In a template that is built of a stack's constructs, under all values and exports, the outcome of a rendered expression
/// agrees with the expression's meaning: its parameters, resources, conditions and mappings are found by their logical names,
/// and what it imports is there.
pub fn stacks_keep_meaning()
    ensures { StacksKeepMeaning }
{}

/// Items of which none holds a `|`, at least one, are the same again when their join by `||` is cut at each `||`.
pub fn cutting_undoes_joining()
    ensures { CuttingUndoesJoining }
{}

/// In an assembly a stack is evaluated under the exports that those before it left.
pub fn stacks_follow()
    ensures { StacksFollow }
{}

/// The import of an export of a stack before is what the exported construct means, and `NoExport` exactly where that is undefined.
pub fn imports_stand()
    ensures { ImportsStand }
{}

/// In each stack of an assembly, after those before it and under all values, the outcome of a rendered expression agrees with
/// the expression's meaning, where what it mentions is in the stack or is exported by one before. Of the items of a list that
/// crosses stacks none may hold a `|`.
pub fn assemblies_keep_meaning()
    ensures { AssembliesKeepMeaning }
{}

/// What a stack of an assembly comes to has each of its resources once, made as its condition means and not otherwise, and each
/// property of a made one agrees with its meaning.
pub fn resources_keep_meaning()
    ensures { ResourcesKeepMeaning }
{}

/// And each output of the application: its text where it is made and its value means one, not made where its condition is
/// false, and a fault exactly where its meaning is undefined.
pub fn outputs_keep_meaning()
    ensures { OutputsKeepMeaning }
{}
