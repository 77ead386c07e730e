// The order in which the stacks of a manifest are evaluated: each after those that it depends on, else by artifact id.
ghost use Rattle.std.specs.Prelude.{◌≡◌, map, IfOk};
ghost use Rattle.serde_json.specs.Data.{Data};
ghost use Rattle.serde_json.specs.View.{view};
ghost use Rattle.cdk_eval.specs.Manifest.{AreApart, stacks_of as spec_stacks_of};
ghost use Rattle.cdk_artifacts.specs.Found.{stack_view};
ghost use Rattle.cdk_stack_order.specs.Order.{IsOrder};

use cdk_artifacts::{Placed, Stack, StackFile, first_cycle, placed_of, stacks_of};
use cdk_base::Value;
use std::alloc::{AllocError, Global};

/// The stacks of a manifest.
#[derive(Drop)]
pub enum Order<'m> {
    /// In evaluation order.
    Stacks(Vec<StackFile<'m>>),
    /// The least artifact id of a stack that reaches itself by dependencies.
    Cycle(&'m str),
}

fn order_of<'m>(alloc: Global, stacks: &[Stack<'m>]) -> Result<Order<'m>, AllocError>
    requires { AreApart (map stack_view stacks.now) }
    ensures { IfOk result (λ order. (manifest : Data) → map stack_view stacks.now ≡ spec_stacks_of manifest → IsOrder manifest order) }
{
    let Placed { files, ids } = placed_of(alloc, stacks)?;
    match first_cycle(alloc, stacks, &ids)? {
        Some(id) => Ok(Order::Cycle(id)),
        None => Ok(Order::Stacks(files)),
    }
}

/// The stacks of a manifest in evaluation order: always next that of the least artifact id whose dependencies stand
/// before it. Where a stack reaches itself by dependencies, the least artifact id of such a stack instead. The error is
/// want of memory.
pub fn stacks_in_order<'m>(alloc: Global, manifest: &'m Value) -> Result<Order<'m>, AllocError>
    ensures { IfOk result (λ order. IsOrder (view manifest.now) order) }
{
    let stacks = stacks_of(alloc, manifest)?;
    order_of(alloc, stacks.as_slice())
}
