//! What the values of CloudFormation templates come to: outcomes of values, of stacks and of assemblies that are
//! read. It knows templates as JSON alone, and no construct.
#![tactic(auto)]

mod assembly;
mod fault;
mod laws;
mod literal;
mod outcome;
mod report;
mod role;
mod values;

pub use assembly::{AsmError, Assembly, StackIn};
pub use fault::EvalFault;
pub use laws::{
    condition_bound_suffices, condition_loops_are_found, condition_names_are_opened,
    cycles_are_found, order_is_whole, order_keeps_dependencies,
};
pub use literal::{has_text, is_whole};
pub use outcome::{Made, Outcome, OutputOutcome, Truth};
pub use report::{OutputOut, PropertyOut, Report, ResourceOut, StackOut};
pub use role::Role;
pub use values::{Values, ValuesError};
