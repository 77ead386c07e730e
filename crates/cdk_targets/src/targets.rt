// What the expressions of constructs ask of their targets and of what stands in them.
ghost use Rattle.std.specs.Prelude.{◌≡◌, ◌<◌, ◌++◌, ◌∷◌, length, map, option_map};
ghost use Rattle.std.specs.List.{list_any};
ghost use Rattle.serde_json.specs.View.{view as json_view};
ghost use Rattle.cdk_language.specs.Condition.{view as condition_view, conditions_view};
ghost use Rattle.cdk_language.specs.Construct.{kind_view};
ghost use Rattle.cdk_language.specs.Expression.{view, expressions_view, fields_view};
ghost use Rattle.cdk_tree.specs.Expected.{expected, expected_all, expected_body, expected_condition, expected_conditions, expected_fields, expected_of, expected_pieces, expected_when, finds_no_text as spec_finds_no_text, finds_nothing as spec_finds_nothing, is_array_or_object as spec_is_array_or_object, is_condition as spec_is_condition, is_resource as spec_is_resource, list_place, serves as spec_serves, target, target_findings, text_place, wrong_targets_at};
ghost use Rattle.cdk_tree.specs.Lists.{list_lazies};
ghost use Rattle.cdk_tree.specs.PlaceFindings.{first};
ghost use Rattle.cdk_tree.specs.Placed.{construct_at};
ghost use Rattle.cdk_tree.specs.TreeView.{constructs, FindsFirst};
ghost use Rattle.cdk_tree.specs.declared.role.TargetRole.TheVariants.{Dependable};
ghost use Rattle.cdk_targets.specs.Looks.{is_refused};

use crate::look::Look;
use cdk_base::{Code, List, Text, Value};
use cdk_language::{Cond, Expr, Field, Kind};
use cdk_tree::{Found, NodeId, TargetRole, Tree};

fn is_resource(kind: &Kind) -> bool
    ensures { result ≡ spec_is_resource (kind_view kind.now) }
{
    matches!(kind, Kind::Resource(_))
}

fn is_condition(kind: &Kind) -> bool
    ensures { result ≡ spec_is_condition (kind_view kind.now) }
{
    matches!(kind, Kind::Condition(_))
}

/// Whether a construct of the kind may be a target of the role.
fn serves(role: TargetRole, kind: &Kind) -> bool
    ensures { result ≡ spec_serves role (kind_view kind.now) }
{
    match kind {
        Kind::Resource(_) => matches!(
            role,
            TargetRole::Referable | TargetRole::Resource | TargetRole::Dependable
        ),
        Kind::Parameter(_) => matches!(role, TargetRole::Referable),
        Kind::Condition(_) => matches!(role, TargetRole::Condition),
        Kind::Mapping(_) => matches!(role, TargetRole::Mapping),
        Kind::Lazy(_) => matches!(role, TargetRole::Lazy),
        Kind::Group | Kind::Stack { .. } => matches!(role, TargetRole::Dependable),
        Kind::App | Kind::Stage | Kind::Output(_) => false,
    }
}

fn refuses_target(tree: &Tree, look: Look, at: NodeId, role: TargetRole, path: &str) -> bool
    ensures { result ≡ is_refused tree.now look at (target role path.now) }
{
    let Some(target) = tree.find(path) else {
        return matches!(look, Look::Missing);
    };
    let kind = &tree.node(target).kind;
    match look {
        Look::Missing => false,
        Look::Wrong => !serves(role, kind),
        Look::WrongInCondition => !serves(role, kind) || is_resource(kind),
    }
}

fn is_array_or_object(value: &Value) -> bool
    ensures { result ≡ spec_is_array_or_object (json_view value.now) }
{
    match value {
        Value::Array(_) | Value::Object(_) => true,
        Value::Null | Value::Bool(_) | Value::Number(_) | Value::String(_) => false,
    }
}

/// Whether an expression is a Context that finds an array or object.
fn finds_no_text(tree: &Tree, at: NodeId, e: &Expr) -> bool
    requires { at < length (constructs tree.now) }
    ensures { result ≡ spec_finds_no_text (construct_at (constructs tree.now) at).contexts (view e.now) }
{
    let Expr::Context(key, default) = e else {
        return false;
    };
    match tree.found(at, key.as_str(), default) {
        Some(value) => is_array_or_object(value),
        None => false,
    }
}

/// Whether an expression is a Context that finds nothing.
fn finds_nothing(tree: &Tree, at: NodeId, e: &Expr) -> bool
    requires { at < length (constructs tree.now) }
    ensures { result ≡ spec_finds_nothing (construct_at (constructs tree.now) at).contexts (view e.now) }
{
    let Expr::Context(key, default) = e else {
        return false;
    };
    tree.found(at, key.as_str(), default).is_none()
}

fn refuses_text_place(tree: &Tree, look: Look, at: NodeId, e: &Expr) -> bool
    requires { at < length (constructs tree.now) }
    ensures { result ≡ is_refused tree.now look at (text_place (view e.now)) }
{
    match look {
        Look::Missing => false,
        Look::Wrong | Look::WrongInCondition => tree.is_list(at, e) || finds_no_text(tree, at, e),
    }
}

fn refuses_list_place(tree: &Tree, look: Look, at: NodeId, e: &Expr) -> bool
    requires { at < length (constructs tree.now) }
    ensures { result ≡ is_refused tree.now look at (list_place (view e.now)) }
{
    match look {
        Look::Missing => false,
        Look::Wrong | Look::WrongInCondition => {
            !(tree.is_list(at, e) || finds_nothing(tree, at, e))
        }
    }
}

/// Whether a look refuses something in an expression of the construct.
#[cycle(refuses)]
fn refuses(tree: &Tree, look: Look, at: NodeId, e: &Expr) -> bool
    requires { at < length (constructs tree.now) }
    ensures { result ≡ list_any (is_refused tree.now look at) (expected (view e.now)) }
{
    match e {
        Expr::Text(_)
        | Expr::Whole(_)
        | Expr::Truth(_)
        | Expr::Pseudo(_)
        | Expr::ImportValue(_)
        | Expr::Context(_, _) => false,
        Expr::List(items) => refuses_item(tree, look, at, items),
        Expr::Object(fields) => refuses_field(tree, look, at, fields),
        Expr::Ref(path) => refuses_target(tree, look, at, TargetRole::Referable, path.as_str()),
        Expr::GetAtt(path, _) => {
            refuses_target(tree, look, at, TargetRole::Resource, path.as_str())
        }
        Expr::Lazy(path) => refuses_target(tree, look, at, TargetRole::Lazy, path.as_str()),
        Expr::Concat(pieces) => refuses_piece(tree, look, at, pieces),
        Expr::Join(_, list) | Expr::Select(_, list) => {
            refuses_list_place(tree, look, at, list) || refuses(tree, look, at, list)
        }
        Expr::Split(_, text) => refuses_text(tree, look, at, text),
        Expr::If(path, x, y) => {
            if refuses_target(tree, look, at, TargetRole::Condition, path.as_str()) {
                return true;
            }
            if refuses(tree, look, at, x) {
                return true;
            }
            refuses(tree, look, at, y)
        }
        Expr::FindInMap(path, x, y) => {
            if refuses_target(tree, look, at, TargetRole::Mapping, path.as_str()) {
                return true;
            }
            if refuses_text(tree, look, at, x) {
                return true;
            }
            refuses_text(tree, look, at, y)
        }
    }
}

/// The same where the expression stands in a text place.
#[cycle(refuses)]
fn refuses_text(tree: &Tree, look: Look, at: NodeId, e: &Expr) -> bool
    requires { at < length (constructs tree.now) }
    ensures { result ≡ list_any (is_refused tree.now look at) (text_place (view e.now) ∷ expected (view e.now)) }
{
    refuses_text_place(tree, look, at, e) || refuses(tree, look, at, e)
}

#[cycle(refuses)]
fn refuses_item(tree: &Tree, look: Look, at: NodeId, items: &List<Expr>) -> bool
    requires { at < length (constructs tree.now) }
    ensures { result ≡ list_any (is_refused tree.now look at) (expected_all (expressions_view items.now)) }
{
    for item in items.as_slice() {
        if refuses(tree, look, at, item) {
            return true;
        }
    }
    false
}

#[cycle(refuses)]
fn refuses_field(tree: &Tree, look: Look, at: NodeId, fields: &List<Field>) -> bool
    requires { at < length (constructs tree.now) }
    ensures { result ≡ list_any (is_refused tree.now look at) (expected_fields (fields_view fields.now)) }
{
    for field in fields.as_slice() {
        if refuses(tree, look, at, &field.value) {
            return true;
        }
    }
    false
}

#[cycle(refuses)]
fn refuses_piece(tree: &Tree, look: Look, at: NodeId, pieces: &List<Expr>) -> bool
    requires { at < length (constructs tree.now) }
    ensures { result ≡ list_any (is_refused tree.now look at) (expected_pieces (expressions_view pieces.now)) }
{
    for piece in pieces.as_slice() {
        if refuses_text(tree, look, at, piece) {
            return true;
        }
    }
    false
}

fn refuses_texts(tree: &Tree, look: Look, at: NodeId, x: &Expr, y: &Expr) -> bool
    requires { at < length (constructs tree.now) }
    ensures { result ≡ list_any (is_refused tree.now look at) ((text_place (view x.now) ∷ expected (view x.now)) ++ (text_place (view y.now) ∷ expected (view y.now))) }
{
    if refuses_text(tree, look, at, x) {
        return true;
    }
    refuses_text(tree, look, at, y)
}

/// The same for the expression of a condition.
#[cycle(conditions)]
fn refuses_condition(tree: &Tree, look: Look, at: NodeId, c: &Cond) -> bool
    requires { at < length (constructs tree.now) }
    ensures { result ≡ list_any (is_refused tree.now look at) (expected_condition (condition_view c.now)) }
{
    match c {
        Cond::Equals(x, y) => refuses_texts(tree, look, at, x, y),
        Cond::And(parts) | Cond::Or(parts) => refuses_part(tree, look, at, parts),
        Cond::Not(part) => refuses_condition(tree, look, at, part),
        Cond::Named(path) => {
            refuses_target(tree, look, at, TargetRole::Condition, path.as_str())
        }
    }
}

#[cycle(conditions)]
fn refuses_part(tree: &Tree, look: Look, at: NodeId, parts: &List<Cond>) -> bool
    requires { at < length (constructs tree.now) }
    ensures { result ≡ list_any (is_refused tree.now look at) (expected_conditions (conditions_view parts.now)) }
{
    for part in parts.as_slice() {
        if refuses_condition(tree, look, at, part) {
            return true;
        }
    }
    false
}

fn refuses_when(tree: &Tree, look: Look, at: NodeId, condition: &Option<Text>) -> bool
    ensures { result ≡ list_any (is_refused tree.now look at) (expected_when condition.now) }
{
    match condition {
        Some(path) => refuses_target(tree, look, at, TargetRole::Condition, path.as_str()),
        None => false,
    }
}

fn refuses_made_when(
    tree: &Tree,
    look: Look,
    at: NodeId,
    e: &Expr,
    condition: &Option<Text>,
) -> bool
    requires { at < length (constructs tree.now) }
    ensures { result ≡ list_any (is_refused tree.now look at) (expected (view e.now) ++ expected_when condition.now) }
{
    let inside = refuses(tree, look, at, e);
    let when = refuses_when(tree, look, at, condition);
    inside || when
}

fn refuses_kind(tree: &Tree, look: Look, at: NodeId, kind: &Kind) -> bool
    requires { at < length (constructs tree.now) }
    ensures { result ≡ list_any (is_refused tree.now look at) (expected_body (kind_view kind.now)) }
{
    match kind {
        Kind::Resource(resource) => {
            refuses_made_when(tree, look, at, &resource.properties, &resource.condition)
        }
        Kind::Output(output) => {
            refuses_made_when(tree, look, at, &output.value, &output.condition)
        }
        Kind::Condition(c) => refuses_condition(tree, look, at, c),
        Kind::Lazy(e) => refuses(tree, look, at, e),
        Kind::App
        | Kind::Stage
        | Kind::Stack { .. }
        | Kind::Group
        | Kind::Parameter(_)
        | Kind::Mapping(_) => false,
    }
}

fn refuses_dependency(tree: &Tree, look: Look, at: NodeId, paths: &List<Text>) -> bool
    ensures { result ≡ list_any (is_refused tree.now look at) (map (target Dependable) paths.now) }
{
    for path in paths.as_slice() {
        if refuses_target(tree, look, at, TargetRole::Dependable, path.as_str()) {
            return true;
        }
    }
    false
}

/// Whether a look refuses something at a construct.
fn refuses_at(tree: &Tree, look: Look, at: NodeId) -> bool
    requires { at < length (constructs tree.now) }
    ensures { result ≡ list_any (is_refused tree.now look at) (expected_of (construct_at (constructs tree.now) at).head (construct_at (constructs tree.now) at).body) }
{
    let part = tree.node(at);
    let before = refuses_dependency(tree, look, at, &part.depends);
    let own = refuses_kind(tree, look, at, &part.kind);
    before || own
}

/// The first thing that is wrong with the targets of a construct.
fn wrong_target(tree: &Tree, at: NodeId) -> Option<Code>
    requires { at < length (constructs tree.now) }
    ensures { result ≡ first (wrong_targets_at (constructs tree.now) (list_lazies (constructs tree.now)) (construct_at (constructs tree.now) at)) }
{
    if refuses_at(tree, Look::Missing, at) {
        return Some(Code::NoTarget);
    }
    let look = if is_condition(&tree.node(at).kind) {
        Look::WrongInCondition
    } else {
        Look::Wrong
    };
    if refuses_at(tree, look, at) {
        return Some(Code::WrongTarget);
    }
    None
}

/// The first thing that is wrong with what constructs refer to, in walk order, at one construct the lowest number:
///
/// - `NoTarget`: no construct has the path of a target.
/// - `WrongTarget`: a target has a wrong kind; a list, or a Context that finds an array or object, stands where a text
///   must be; neither an array nor a list stands where a list must be; or a condition mentions a resource.
///
/// Every construct is looked at, lazies that nothing uses included. A Context that finds nothing passes.
pub fn check_targets(tree: &Tree) -> Result<(), Found>
    ensures { FindsFirst result (target_findings (constructs tree.now)) }
{
    for number in 0..tree.len() {
        let Some(at) = tree.id(number) else {
            unreachable!()
        };
        if let Some(code) = wrong_target(tree, at) {
            return Err(Found { code, at });
        }
    }
    Ok(())
}
