// The marked values of an application, by construct.
use cdk_base::Value;
use cdk_tree::NodeId;

// What is marked of a construct.
#[derive(Drop)]
pub(crate) enum Part {
    Nothing,
    // of a resource its properties, of an output or lazy its value
    Value(Value),
    // the operands of a condition
    Operands(Vec<Value>),
}

/// The marked value of each resource (its properties), output and lazy, and of each operand of a condition.
#[derive(Drop)]
pub struct Marked {
    parts: Vec<Part>,
}

impl Marked {
    ghost use Rattle.std.specs.Prelude.{◌≡◌, map, option_map, slice_get};
    ghost use Rattle.serde_json.specs.View.{view as json_view};
    ghost use Rattle.cdk_tokens.specs.TableView.{marked_in};
    ghost use Rattle.cdk_tokens.specs.Views.{part_view};
    ghost use Rattle.cdk_tokens.specs.Whole.{operand_at, value_at};

    pub(crate) fn of(parts: Vec<Part>) -> Marked
        ensures { marked_in result ≡ map part_view parts.items }
    {
        Marked { parts }
    }

    fn part(&self, at: NodeId) -> Option<&Part>
        ensures { option_map (λ p. part_view p.now) result ≡ slice_get (marked_in self.now) at }
    {
        self.parts.get(at.number())
    }

    /// The marked properties of a resource, or the marked value of an output or lazy. None exactly for other constructs.
    pub fn value(&self, at: NodeId) -> Option<&Value>
        ensures { option_map (λ v. json_view v.now) result ≡ value_at (marked_in self.now) at }
    {
        match self.part(at)? {
            Part::Value(value) => Some(value),
            Part::Nothing | Part::Operands(_) => None,
        }
    }

    /// The marked operand of a condition, counted from 0 in written order. None exactly past its last, and for other
    /// constructs.
    pub fn operand(&self, at: NodeId, n: usize) -> Option<&Value>
        ensures { option_map (λ v. json_view v.now) result ≡ operand_at (marked_in self.now) at n }
    {
        match self.part(at)? {
            Part::Operands(values) => values.get(n),
            Part::Nothing | Part::Value(_) => None,
        }
    }
}
