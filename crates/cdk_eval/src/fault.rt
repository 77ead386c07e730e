ghost use Rattle.std.specs.Prelude.{◌≡◌};
ghost use Rattle.cdk_eval.specs.Faults.{eval_fault_name};

/// Why a value of a template has no outcome (own names for the refusals of CloudFormation's intrinsic functions).
#[derive(Clone, Copy, Debug, PartialEq, Eq)]
pub enum EvalFault {
    /// A text or a list is asked for, and the value is none.
    NotText,
    /// `Fn::Select` asks for an item past the end of its list.
    NoItem,
    /// `Fn::FindInMap` names no entry of a mapping.
    NoMapping,
    /// A parameter has neither a value nor a default.
    NoParameter,
    /// `Fn::ImportValue` names no export of an earlier stack, nor one from outside.
    NoExport,
    /// A resource that is referred to isn't made.
    NotMade,
    /// No parameter, resource or condition has the name.
    UnknownName,
    /// An intrinsic has a wrong form, or may not stand where it does.
    BadIntrinsic,
    /// A condition reaches itself.
    ConditionLoop,
}

impl EvalFault {
    /// The fault's printed name.
    pub fn name(&self) -> &str
        ensures { result.now ≡ eval_fault_name self.now }
    {
        match self {
            EvalFault::NotText => "NotText",
            EvalFault::NoItem => "NoItem",
            EvalFault::NoMapping => "NoMapping",
            EvalFault::NoParameter => "NoParameter",
            EvalFault::NoExport => "NoExport",
            EvalFault::NotMade => "NotMade",
            EvalFault::UnknownName => "UnknownName",
            EvalFault::BadIntrinsic => "BadIntrinsic",
            EvalFault::ConditionLoop => "ConditionLoop",
        }
    }
}
