// Which kinds of construct may stand where.
ghost use Rattle.std.specs.Prelude.{◌≡◌, ◌+◌};
ghost use Rattle.cdk_language.specs.Construct.{kind_view};
ghost use Rattle.cdk_scoping.specs.Places.{is_element as spec_is_element, is_misplaced as spec_is_misplaced, is_stack as spec_is_stack, is_stage as spec_is_stage};

use cdk_language::Kind;

/// How deep constructs may stand; the children of the root are the first level.
const LEVELS: u8 = 10;

/// Whether a construct of the kind is a stack.
pub fn is_stack(kind: &Kind) -> bool
    ensures { result ≡ spec_is_stack (kind_view kind.now) }
{
    matches!(kind, Kind::Stack { .. })
}

/// Whether a construct of the kind is a stage.
pub fn is_stage(kind: &Kind) -> bool
    ensures { result ≡ spec_is_stage (kind_view kind.now) }
{
    matches!(kind, Kind::Stage)
}

/// Whether a construct of the kind is part of a template: a resource, parameter, condition, mapping or output.
pub fn is_element(kind: &Kind) -> bool
    ensures { result ≡ spec_is_element (kind_view kind.now) }
{
    match kind {
        Kind::App | Kind::Stage | Kind::Stack { .. } | Kind::Group | Kind::Lazy(_) => false,
        Kind::Resource(_)
        | Kind::Parameter(_)
        | Kind::Condition(_)
        | Kind::Mapping(_)
        | Kind::Output(_) => true,
    }
}

/// Whether a construct of the kind may not stand in a scope of the level, the root's being 0, that is in a stack or not:
/// a stack or a stage in a stack, a part of a template outside every stack, or anything over ten levels below the root
/// (AWS CDK; the limit of levels is own).
pub fn is_misplaced(in_stack: bool, scope_level: u8, kind: &Kind) -> bool
    ensures { result ≡ spec_is_misplaced in_stack (scope_level + 1) (kind_view kind.now) }
{
    ((is_stack(kind) || is_stage(kind)) && in_stack)
        || (is_element(kind) && !in_stack)
        || scope_level >= LEVELS
}
