// The expression of a condition (CloudFormation's condition functions).

use crate::expression::Expr;
use cdk_base::{List, Text};

/// The expression of a condition.
#[derive(Drop)]
pub enum Cond {
    /// `Fn::Equals`: both texts are the same.
    Equals(Expr, Expr),
    /// `Fn::And`: 2 to 10 conditions that all hold.
    And(List<Cond>),
    /// `Fn::Or`: 2 to 10 conditions of which one holds.
    Or(List<Cond>),
    /// `Fn::Not`: the condition doesn't hold.
    Not(Box<Cond>),
    /// `Condition`: the condition at the path holds.
    Named(Text),
}
