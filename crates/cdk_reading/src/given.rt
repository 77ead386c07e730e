ghost use Rattle.std.specs.Prelude.{◌≡◌, map, option_map, IfOk};
ghost use Rattle.cdk_eval.specs.Form.{first_miss as spec_first_miss};
ghost use Rattle.cdk_eval.specs.Reading.{given_stacks};
ghost use Rattle.cdk_eval.specs.Views.{stack_view};
ghost use Rattle.cdk_reading.specs.Answers.{GivesAssembly};

use cdk_base::{List, Text};
use cdk_eval::{AsmError, Assembly, Role, StackIn};
use cdk_form::first_miss;
use std::alloc::Global;

/// The assembly of these stacks, evaluated in their order. `Shape` exactly where a template misses its form, of the first
/// such stack, with its name as the file and the first pointer. Besides, memory may be wanting, and nothing else comes.
pub fn of_templates(alloc: Global, stacks: List<StackIn>) -> Result<Assembly, AsmError>
    ensures { GivesAssembly result (given_stacks (map stack_view stacks)) }
{
    for stack in stacks.as_slice() {
        match first_miss(alloc, Role::Template, &stack.template) {
            Ok(None) => {}
            Ok(Some(pointer)) => {
                return match Text::new(alloc, stack.name.as_str()) {
                    Ok(file) => Err(AsmError::Shape { file, pointer }),
                    Err(_) => Err(AsmError::Memory),
                };
            }
            Err(_) => return Err(AsmError::Memory),
        }
    }
    Ok(Assembly::of_stacks(stacks))
}
