// How a stack of the rows spells what it uses: its own elements by their logical names. What another stack has is an export,
// whose name stands here for that of a generated output: the path, and `.` and the attribute where there is one.
ghost use Rattle.std.specs.Prelude.{◌<◌, length};
ghost use Rattle.cdk_tree.specs.TreeView.{constructs};

use cdk_base::Text;
use cdk_homes::{Home, Homes, Target};
use cdk_language::{Kind, ParameterForm};
use cdk_stacks::Names;
use cdk_tokens::{Form, Table};
use cdk_tree::{NodeId, Tree};
use std::alloc::{AllocError, Global};

/// A stack that uses targets, and the names of its application's elements.
#[derive(Clone, Copy)]
pub struct Consumer<'a> {
    pub tree: &'a Tree,
    pub names: &'a Names,
    pub stack: NodeId,
}

fn is_list(kind: &Kind) -> bool {
    match kind {
        Kind::Parameter(parameter) => parameter.form == ParameterForm::List,
        _ => false,
    }
}

// The name in a home: the logical name in the stack itself, elsewhere that of the export.
fn name_in(
    alloc: Global,
    how: Home,
    logical: &str,
    path: &str,
    attribute: Option<&str>,
) -> Result<String, AllocError> {
    match (how, attribute) {
        (Home::Local, _) => String::from_str(alloc, logical),
        (_, Some(attribute)) => format!(in alloc; "{path}.{attribute}"),
        (_, None) => String::from_str(alloc, path),
    }
}

fn target_of(alloc: Global, at: NodeId, attribute: Option<&str>) -> Result<Target, AllocError> {
    let attribute = match attribute {
        Some(attribute) => Some(Text::new(alloc, attribute)?),
        None => None,
    };
    Ok(Target { at, attribute })
}

// Keeps how a target is spelled, where it isn't kept yet.
fn put_once(
    homes: &mut Homes,
    target: Target,
    stack: NodeId,
    name: Text,
    how: Home,
) -> Result<(), AllocError> {
    if homes.spell(&target, stack).is_some() {
        return Ok(());
    }
    homes.put(target, stack, name, how)
}

impl Consumer<'_> {
    // Where a construct is found, seen from the stack.
    fn home(&self, at: NodeId) -> Home
        requires { at < length (constructs self.now.tree.now) }
    {
        if self.tree.stack_of(at) == Some(self.stack) {
            Home::Local
        } else if is_list(&self.tree.node(at).kind) {
            Home::ImportList
        } else {
            Home::Import
        }
    }

    // Keeps how a construct or its attribute is spelled, where it is an element.
    fn put(
        &self,
        alloc: Global,
        homes: &mut Homes,
        at: NodeId,
        attribute: Option<&str>,
    ) -> Result<(), AllocError>
        requires { at < length (constructs self.now.tree.now) }
    {
        let Some(logical) = self.names.logical(at) else {
            return Ok(());
        };
        let how = self.home(at);
        let name = name_in(alloc, how, logical, self.tree.path_of(at), attribute)?;
        let target = target_of(alloc, at, attribute)?;
        put_once(homes, target, self.stack, Text::from_string(name), how)
    }

    // Keeps how the attribute is spelled that a token names.
    fn put_form(&self, alloc: Global, homes: &mut Homes, form: &Form) -> Result<(), AllocError> {
        let Form::GetAtt(at, attribute) = form else {
            return Ok(());
        };
        match self.tree.id(at.number()) {
            Some(at) => self.put(alloc, homes, at, Some(attribute.as_str())),
            None => Ok(()),
        }
    }

    /// Keeps how each element is spelled, and each attribute that a token names.
    pub fn put_all(
        &self,
        alloc: Global,
        homes: &mut Homes,
        table: &Table,
    ) -> Result<(), AllocError> {
        for n in 0..self.tree.len() {
            if let Some(at) = self.tree.id(n) {
                self.put(alloc, homes, at, None)?;
            }
        }
        for n in 0..table.len() {
            if let Some(token) = table.token(n) {
                self.put_form(alloc, homes, &token.form)?;
            }
        }
        Ok(())
    }
}
