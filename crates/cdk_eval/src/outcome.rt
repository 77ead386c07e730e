// What values, resources and outputs of a template come to.
use crate::EvalFault;
use cdk_base::{Text, Value};

/// Whether a condition holds, or why that is untold.
#[derive(Clone, Copy, Debug, PartialEq, Eq)]
pub enum Truth {
    Holds(bool),
    Untold(EvalFault),
}

/// Whether a resource is made (CloudFormation's `Condition` of a resource).
#[derive(Clone, Copy, Debug, PartialEq, Eq)]
pub enum Made {
    Made,
    NotMade,
    /// The fault of its condition.
    Fault(EvalFault),
}

/// What a value of a template comes to.
#[derive(Drop)]
pub enum Outcome {
    Value(Value),
    /// What `AWS::NoValue` leaves.
    Gone,
    Fault(EvalFault),
}

/// What an output of a template comes to.
#[derive(Drop)]
pub enum OutputOutcome {
    Text(Text),
    /// Its condition doesn't hold.
    NotMade,
    Fault(EvalFault),
}
