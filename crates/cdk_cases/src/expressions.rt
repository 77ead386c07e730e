// Expressions of one application: what its template holds for them, and what that comes to.
use crate::members::parsed;
use crate::world::{EVAL, SYNTH, World};
use cdk_base::Value;
use cdk_memory::MemFiles;
use cdk_outside::Files;
use cdk_tally::{Group, Trouble, text_of_file};
use std::alloc::{AllocError, Global};

/// Expressions, each told by what the template holds for it, and by what that comes to under the values; or by the fault
/// that `synth` refuses the application with. The expression stands in the application in place of the text `@`, as the
/// property `P` of the resource `R` of the stack `S`.
#[derive(Drop)]
pub struct Expressions {
    application: String,
    values: String,
}

fn property_in(alloc: Global, template: &Value) -> Result<String, Trouble> {
    let property = template.pointer("/Resources/R/Properties/P");
    Ok(property.ok_or(Trouble::Data)?.to_string(alloc)?)
}

// The property `P` in a template's text.
fn property_of(alloc: Global, template: &str) -> Result<String, Trouble> {
    let template = parsed(alloc, template)?;
    let property = property_in(alloc, &template);
    drop(template);
    property
}

fn text_at<'a>(files: &'a MemFiles, name: &str) -> Result<&'a str, Trouble> {
    let bytes = files.get(name).ok_or(Trouble::Data)?;
    str::from_utf8(bytes).map_err(|_| Trouble::Data)
}

// What the report says of the property `P`, which no other resource of the application has.
fn outcome_in(report: &[u8]) -> Option<&str> {
    let report = str::from_utf8(report).ok()?;
    let (_, rest) = report.split_once("  \"P\"")?;
    let (outcome, _) = rest.split_once('\n')?;
    Some(outcome)
}

// What is told where the template stands.
fn told_of(alloc: Global, world: &mut World) -> Result<String, Trouble> {
    let mut told = property_of(alloc, text_at(&world.files, "out/S.template.json")?)?;
    world.run_words(alloc, &EVAL)?;
    told.push_str(outcome_in(world.out.bytes()).unwrap_or(" no outcome"))?;
    Ok(told)
}

impl Expressions {
    /// Those of the application and the values in `data/`.
    pub fn new<F: Files>(alloc: Global, source: &mut F) -> Result<Self, Trouble> {
        let application = text_of_file(alloc, source, "expressions.app.json")?;
        let values = text_of_file(alloc, source, "expressions.values.json")?;
        Ok(Expressions {
            application,
            values,
        })
    }

    // Sets the application with the expression, and the values.
    fn set_files(
        &self,
        alloc: Global,
        world: &mut World,
        expression: &str,
    ) -> Result<(), AllocError> {
        let application = self.application.replace(alloc, "\"@\"", expression)?;
        world.set_application(application.as_str())?;
        world.files.add("v.json", self.values.as_bytes())
    }

    fn told_in(
        &self,
        alloc: Global,
        world: &mut World,
        expression: &str,
    ) -> Result<String, Trouble> {
        self.set_files(alloc, world, expression)?;
        let status = world.run_words(alloc, &SYNTH)?;
        if status.number() != 0 {
            return Ok(String::from_str(alloc, world.refusal(status))?);
        }
        told_of(alloc, world)
    }
}

impl Group for Expressions {
    fn name(&self) -> &'static str {
        "expressions"
    }

    fn told(&self, alloc: Global, document: &str) -> Result<String, Trouble> {
        let mut world = World::new(alloc, &Value::Null)?;
        let told = self.told_in(alloc, &mut world, document);
        drop(world);
        told
    }
}
