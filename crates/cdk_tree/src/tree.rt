// The tree of an application, and the look-ups in it.
ghost use Rattle.std.specs.Prelude.{◌≡◌};
ghost use Rattle.cdk_tree.specs.Lists.{list_lazies as spec_list_lazies};
ghost use Rattle.cdk_tree.specs.NodesView.{placed_nodes};

use crate::lists::{finds_array, found, list_lazies, names_list};
use crate::node_id::NodeId;
use crate::nodes::Nodes;
use crate::part::Part;
use crate::walking::walk;
use cdk_base::{Fault, Value};
use cdk_language::{App, Expr};
use indexmap::IndexMap;
use std::alloc::Global;

/// The constructs of an application in walk order: each scope before its children, children in the order given. A
/// construct's path is the ids from below the root down to its own, joined by `/` (AWS CDK's construct tree). No
/// look-up takes memory.
#[derive(Drop)]
pub struct Tree {
    nodes: Nodes,
    lists: Vec<bool>,
    ghost listed: { lists.items ≡ spec_list_lazies (placed_nodes nodes) },
}

impl Tree {
    ghost use Rattle.std.specs.Prelude.{◌<◌, ◌≤◌, ◌↔◌, length, map, nat_lt, if◌then◌else◌, option_map, string_bytes, slice_index_or, true, false, Some, None, IfSome, IsNone, MatchOption};
    ghost use Rattle.std.specs.Option.{option_copied, option_map_or};
    ghost use Rattle.serde_json.specs.View.{view as json_view};
    ghost use Rattle.cdk_language.specs.Construct.{app_view, kind_view};
    ghost use Rattle.cdk_language.specs.Expression.{view};
    ghost use Rattle.cdk_tree.specs.Lists.{is_list as spec_is_list};
    ghost use Rattle.cdk_tree.specs.Placed.{construct_at, find_path, found_value, is_stack, look_up};
    ghost use Rattle.cdk_tree.specs.Slots.{head_of, numbered_paths};
    ghost use Rattle.cdk_tree.specs.TreeView.{constructs, Builds};

    /// The tree of an application, or the first thing that is wrong with its ids and places.
    pub(crate) fn of(alloc: Global, app: App) -> Result<Tree, Fault>
        ensures { Builds result (app_view app) }
    {
        let App { root } = app;
        let nodes = match walk(alloc, root) {
            Ok(nodes) => nodes,
            Err(fault) => return Err(fault),
        };
        match list_lazies(alloc, &nodes) {
            Ok(lists) => Ok(Tree { nodes, lists }),
            Err(_) => {
                drop(nodes);
                Err(Fault::Memory)
            }
        }
    }

    /// How many constructs there are, the root counted.
    pub fn len(&self) -> usize
        ensures { result ≡ length (constructs self.now) }
    {
        self.nodes.len()
    }

    /// The construct of the number, counted from 0 in walk order. None exactly where there are fewer constructs.
    pub fn id(&self, n: usize) -> Option<NodeId>
        ensures { result ≡ (if nat_lt n (length (constructs self.now)) then Some n else None) }
    {
        if n < self.len() {
            Some(NodeId::new(n))
        } else {
            None
        }
    }

    /// What a construct is, without its children.
    pub fn node(&self, at: NodeId) -> &Part
        requires { at < length (constructs self.now) }
        ensures head { head_of result.now ≡ (construct_at (constructs self.now) at).head }
        ensures body { kind_view result.now.kind ≡ (construct_at (constructs self.now) at).body }
    {
        &self.nodes.slot(at).part
    }

    /// The scope that a construct is a child of. None exactly at the root.
    pub fn parent(&self, at: NodeId) -> Option<NodeId>
        requires { at < length (constructs self.now) }
        ensures value { result ≡ (construct_at (constructs self.now) at).parent }
        ensures below { MatchOption result (at ≡ 0) (λ m. m < at) }
    {
        self.nodes.slot(at).parent
    }

    /// The construct at a path. None exactly where no construct has it; the root's path is empty.
    pub fn find(&self, path: &str) -> Option<NodeId>
        ensures value { result ≡ find_path (constructs self.now) path.now }
        ensures within { IfSome result (λ n. n < length (constructs self.now)) }
    {
        self.nodes.find(path)
    }

    /// The paths in walk order, each with its construct.
    pub fn paths(&self) -> &IndexMap<String, NodeId>
        ensures { map (λ e. (string_bytes e.0, e.1)) result.now.entries ≡ numbered_paths 0 (constructs self.now) }
    {
        self.nodes.paths()
    }

    /// The path of a construct.
    pub fn path_of(&self, at: NodeId) -> &str
        requires { at < length (constructs self.now) }
        ensures { result.now ≡ (construct_at (constructs self.now) at).path }
    {
        self.nodes.path_of(at)
    }

    /// The construct itself or its nearest scope that is a stack. None exactly outside every stack.
    pub fn stack_of(&self, at: NodeId) -> Option<NodeId>
        requires { at < length (constructs self.now) }
        ensures value { result ≡ (construct_at (constructs self.now) at).stack }
        ensures stack { IfSome result (λ n. (n ≤ at) × (is_stack (construct_at (constructs self.now) n).body ≡ true)) }
    {
        self.nodes.slot(at).stack
    }

    /// The construct itself or its nearest scope that is a stage, else the root.
    pub fn stage_of(&self, at: NodeId) -> NodeId
        requires { at < length (constructs self.now) }
        ensures value { result ≡ (construct_at (constructs self.now) at).stage }
        ensures before { result ≤ at }
    {
        self.nodes.slot(at).stage
    }

    /// The context value of a key: in the construct's own context, else in that of its nearest scope that has the key.
    /// None exactly where no scope has it.
    pub fn context(&self, at: NodeId, key: &str) -> Option<&Value>
        requires { at < length (constructs self.now) }
        ensures { option_map json_view (option_copied result) ≡ look_up key.now (construct_at (constructs self.now) at).contexts }
    {
        self.nodes.context(at, key)
    }

    /// What a Context of a construct finds: the context value of its key, else its default. None exactly where it finds
    /// nothing.
    pub fn found<'a>(
        &'a self,
        at: NodeId,
        key: &str,
        default: &'a Option<Value>,
    ) -> Option<&'a Value>
        requires { at < length (constructs self.now) }
        ensures { option_map json_view (option_copied result) ≡ found_value (construct_at (constructs self.now) at).contexts key.now (option_map json_view default.now) }
    {
        found(&self.nodes, at, key, default)
    }

    fn is_list_lazy(&self, path: &str) -> bool
        ensures { result ≡ option_map_or (λ n. slice_index_or (spec_list_lazies (constructs self.now)) n false) (find_path (constructs self.now) path.now) false }
    {
        match self.nodes.find(path) {
            Some(lazy) => self.lists[lazy.number()],
            None => false,
        }
    }

    /// Whether an expression of a construct is a list: an array, `Fn::Split`, `Ref` of a `CommaDelimitedList`
    /// parameter, a Context that finds an array, `Fn::If` of two lists, or a lazy whose value is a list. A chain of
    /// lazies that comes back to itself is none.
    pub fn is_list(&self, at: NodeId, e: &Expr) -> bool
        requires { at < length (constructs self.now) }
        ensures { result ≡ spec_is_list (constructs self.now) at (view e.now) }
    {
        match e {
            Expr::List(_) | Expr::Split(_, _) => true,
            Expr::Ref(path) => names_list(&self.nodes, path.as_str()),
            Expr::Lazy(path) => self.is_list_lazy(path.as_str()),
            Expr::Context(key, default) => finds_array(&self.nodes, at, key.as_str(), default),
            Expr::If(_, x, y) => self.is_list(at, x) && self.is_list(at, y),
            Expr::Text(_)
            | Expr::Whole(_)
            | Expr::Truth(_)
            | Expr::Object(_)
            | Expr::Pseudo(_)
            | Expr::GetAtt(_, _)
            | Expr::Concat(_)
            | Expr::Join(_, _)
            | Expr::Select(_, _)
            | Expr::FindInMap(_, _, _)
            | Expr::ImportValue(_) => false,
        }
    }
}
