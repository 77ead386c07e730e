// Applications that `synth` refuses.
use crate::world::{SYNTH, World};
use cdk_base::Value;
use cdk_tally::{Group, Trouble};
use std::alloc::Global;

/// Applications, told by the fault in the line that `synth` refuses one with.
pub struct Applications;

fn told_in(alloc: Global, world: &mut World, application: &str) -> Result<String, Trouble> {
    world.set_application(application)?;
    let status = world.run_words(alloc, &SYNTH)?;
    Ok(String::from_str(alloc, world.refusal(status))?)
}

impl Group for Applications {
    fn name(&self) -> &'static str {
        "applications"
    }

    fn told(&self, alloc: Global, document: &str) -> Result<String, Trouble> {
        let mut world = World::new(alloc, &Value::Null)?;
        let told = told_in(alloc, &mut world, document);
        drop(world);
        told
    }
}
