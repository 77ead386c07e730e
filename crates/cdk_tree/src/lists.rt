// Which lazies have lists as their values, and what an expression's being a list depends on.
ghost use Rattle.std.specs.Prelude.{◌≡◌, ◌<◌, [], ◌∷◌, length, option_map, IfOk};
ghost use Rattle.std.specs.Option.{option_copied};
ghost use Rattle.serde_json.specs.View.{view as json_view};
ghost use Rattle.cdk_language.specs.Construct.{kind_view};
ghost use Rattle.cdk_language.specs.Expression.{view};
ghost use Rattle.cdk_tree.specs.Lists.{is_array as spec_is_array, is_list_parameter as spec_is_list_parameter, list_lazies as spec_list_lazies};
ghost use Rattle.cdk_tree.specs.Needed.{all_needed, both_needed, finds_array as spec_finds_array, met_where as spec_met_where, names_list as spec_names_list, needed as spec_needed, needed_body as spec_needed_body};
ghost use Rattle.cdk_tree.specs.NodesView.{placed_nodes};
ghost use Rattle.cdk_tree.specs.Placed.{construct_at, find_path, found_value};

use crate::node_id::NodeId;
use crate::nodes::Nodes;
use cdk_base::{List, Value};
use cdk_language::{Expr, Kind, ParameterForm};
use cdk_needs::met_needs;
use std::alloc::{AllocError, Global};

fn is_list_parameter(kind: &Kind) -> bool
    ensures { result ≡ spec_is_list_parameter (kind_view kind.now) }
{
    match kind {
        Kind::Parameter(parameter) => match parameter.form {
            ParameterForm::List => true,
            ParameterForm::Text | ParameterForm::Number => false,
        },
        Kind::App
        | Kind::Stage
        | Kind::Stack { .. }
        | Kind::Group
        | Kind::Resource(_)
        | Kind::Condition(_)
        | Kind::Mapping(_)
        | Kind::Output(_)
        | Kind::Lazy(_) => false,
    }
}

/// Whether a `Ref` of the path is a list.
pub fn names_list(nodes: &Nodes, path: &str) -> bool
    ensures { result ≡ spec_names_list (placed_nodes nodes.now) path.now }
{
    match nodes.find(path) {
        Some(at) => is_list_parameter(&nodes.slot(at).part.kind),
        None => false,
    }
}

/// What a Context finds: the value of its key in the nearest scope, else its default.
pub fn found<'a>(
    nodes: &'a Nodes,
    at: NodeId,
    key: &str,
    default: &'a Option<Value>,
) -> Option<&'a Value>
    requires { at < length (placed_nodes nodes.now) }
    ensures { option_map json_view (option_copied result) ≡ found_value (construct_at (placed_nodes nodes.now) at).contexts key.now (option_map json_view default.now) }
{
    match nodes.context(at, key) {
        Some(value) => Some(value),
        None => default.as_ref(),
    }
}

/// Whether a Context finds an array.
pub fn finds_array(nodes: &Nodes, at: NodeId, key: &str, default: &Option<Value>) -> bool
    requires { at < length (placed_nodes nodes.now) }
    ensures { result ≡ spec_finds_array (construct_at (placed_nodes nodes.now) at).contexts key.now (option_map json_view default.now) }
{
    match found(nodes, at, key, default) {
        Some(value) => value.is_array(),
        None => false,
    }
}

fn met_where(alloc: Global, met: bool) -> Option<List<usize>>
    ensures { result ≡ spec_met_where met }
{
    if met { Some(List::new(alloc)) } else { None }
}

fn both(
    first: Option<List<usize>>,
    second: Option<List<usize>>,
) -> Result<Option<List<usize>>, AllocError>
    ensures { IfOk result (λ r. r ≡ both_needed first second) }
{
    let Some(mut all) = first else {
        return Ok(None);
    };
    let Some(more) = second else {
        return Ok(None);
    };
    all.append(more)?;
    Ok(Some(all))
}

fn needed_lazy(alloc: Global, nodes: &Nodes, path: &str) -> Result<Option<List<usize>>, AllocError>
    ensures { IfOk result (λ r. r ≡ option_map (λ n. n ∷ []) (find_path (placed_nodes nodes.now) path.now)) }
{
    let Some(lazy) = nodes.find(path) else {
        return Ok(None);
    };
    let mut all = List::new(alloc);
    all.push(lazy.number())?;
    Ok(Some(all))
}

/// The lazies that must be lists for an expression of the construct to be one; None where it is none whatever they are.
fn needed(
    alloc: Global,
    nodes: &Nodes,
    at: NodeId,
    e: &Expr,
) -> Result<Option<List<usize>>, AllocError>
    requires { at < length (placed_nodes nodes.now) }
    ensures { IfOk result (λ r. r ≡ spec_needed (placed_nodes nodes.now) (construct_at (placed_nodes nodes.now) at).contexts (view e.now)) }
{
    match e {
        Expr::List(_) | Expr::Split(_, _) => Ok(met_where(alloc, true)),
        Expr::Ref(path) => Ok(met_where(alloc, names_list(nodes, path.as_str()))),
        Expr::Lazy(path) => needed_lazy(alloc, nodes, path.as_str()),
        Expr::Context(key, default) => {
            Ok(met_where(alloc, finds_array(nodes, at, key.as_str(), default)))
        }
        Expr::If(_, x, y) => both(needed(alloc, nodes, at, x)?, needed(alloc, nodes, at, y)?),
        Expr::Text(_)
        | Expr::Whole(_)
        | Expr::Truth(_)
        | Expr::Object(_)
        | Expr::Pseudo(_)
        | Expr::GetAtt(_, _)
        | Expr::Concat(_)
        | Expr::Join(_, _)
        | Expr::Select(_, _)
        | Expr::FindInMap(_, _, _)
        | Expr::ImportValue(_) => Ok(None),
    }
}

fn needed_of(alloc: Global, nodes: &Nodes, at: NodeId) -> Result<Option<List<usize>>, AllocError>
    requires { at < length (placed_nodes nodes.now) }
    ensures { IfOk result (λ r. r ≡ spec_needed_body (placed_nodes nodes.now) (construct_at (placed_nodes nodes.now) at).contexts (construct_at (placed_nodes nodes.now) at).body) }
{
    match &nodes.slot(at).part.kind {
        Kind::Lazy(e) => needed(alloc, nodes, at, e),
        Kind::App
        | Kind::Stage
        | Kind::Stack { .. }
        | Kind::Group
        | Kind::Resource(_)
        | Kind::Parameter(_)
        | Kind::Condition(_)
        | Kind::Mapping(_)
        | Kind::Output(_) => Ok(None),
    }
}

fn all_needs(alloc: Global, nodes: &Nodes) -> Result<List<Option<List<usize>>>, AllocError>
    ensures { IfOk result (λ ns. ns ≡ all_needed (placed_nodes nodes.now)) }
{
    let mut all = List::new(alloc);
    for number in 0..nodes.len() {
        all.push(needed_of(alloc, nodes, NodeId::new(number))?)?;
    }
    Ok(all)
}

/// Of each construct, whether it is a lazy whose value is a list.
pub fn list_lazies(alloc: Global, nodes: &Nodes) -> Result<Vec<bool>, AllocError>
    ensures { IfOk result (λ ls. ls.items ≡ spec_list_lazies (placed_nodes nodes.now)) }
{
    let needs = all_needs(alloc, nodes)?;
    met_needs(alloc, needs.as_slice())
}
