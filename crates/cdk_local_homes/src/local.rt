// The homes of an application's one stack.
ghost use Rattle.std.specs.Prelude.{◌≡◌, ◌<◌, ◌+◌, ◌++◌, ◌∷◌, [], length, List, option_map, IfOk, OnOk};
ghost use Rattle.cdk_elements.specs.Elements.{logical_of};
ghost use Rattle.cdk_homes.specs.Kept.{entries_in};
ghost use Rattle.cdk_local_homes.specs.Local.{attribute_in as spec_attribute_in, AreLocal, HasElementsBelow, PutsOnce, target_of, target_view};
ghost use Rattle.cdk_stacks.specs.Made.{AreNamesOf};
ghost use Rattle.cdk_tokens.specs.TableView.{tokens_in};
ghost use Rattle.cdk_tokens.specs.Token.{Token as TokenView};
ghost use Rattle.cdk_tokens.specs.Views.{form_view, token_view};
ghost use Rattle.cdk_tree.specs.Placed.{Placed};
ghost use Rattle.cdk_tree.specs.TreeView.{constructs};

use cdk_base::Text;
use cdk_homes::{Home, Homes, Target};
use cdk_scoping::is_element;
use cdk_stacks::Names;
use cdk_tokens::{Form, Table, Token};
use cdk_tree::{NodeId, Tree};
use std::alloc::{AllocError, Global};

// The logical name of a construct, or the empty text where it has none.
fn logical_name(names: &Names, at: NodeId) -> &str
    ensures { (cs : List Placed) → AreNamesOf names.now cs → result.now ≡ logical_of cs at }
{
    match names.logical(at) {
        Some(name) => name,
        None => "",
    }
}

/// Spells the target by the name in the stack, where it isn't spelled there yet.
fn put_once(
    alloc: Global,
    target: Target,
    stack: NodeId,
    name: &str,
    homes: &mut Homes,
) -> Result<(), AllocError>
    ensures { OnOk result (PutsOnce (entries_in homes.old) (entries_in homes.new) stack target.at target.attribute name.now) }
{
    if homes.spell(&target, stack).is_some() {
        return Ok(());
    }
    let name = Text::new(alloc, name)?;
    homes.put(target, stack, name, Home::Local)
}

/// Spells the construct in the stack where it is an element.
fn put_element(
    alloc: Global,
    tree: &Tree,
    names: &Names,
    stack: NodeId,
    at: NodeId,
    homes: &mut Homes,
) -> Result<(), AllocError>
    requires within { at < length (constructs tree.now) }
    requires names { AreNamesOf names.now (constructs tree.now) }
    requires before { HasElementsBelow (entries_in homes.old) (constructs tree.now) stack at }
    ensures { OnOk result (HasElementsBelow (entries_in homes.new) (constructs tree.now) stack (at + 1)) }
{
    let node = tree.node(at);
    if !is_element(&node.kind) {
        return Ok(());
    }
    let target = Target {
        at,
        attribute: None,
    };
    put_once(alloc, target, stack, logical_name(names, at), homes)
}

fn put_elements(
    alloc: Global,
    tree: &Tree,
    names: &Names,
    stack: NodeId,
    homes: &mut Homes,
) -> Result<(), AllocError>
    requires names { AreNamesOf names.now (constructs tree.now) }
    requires new { entries_in homes.old ≡ [] }
    ensures { OnOk result (AreLocal (entries_in homes.new) (constructs tree.now) [] stack) }
{
    for number in 0..tree.len() {
        let Some(at) = tree.id(number) else {
            unreachable!()
        };
        put_element(alloc, tree, names, stack, at, homes)?;
    }
    Ok(())
}

/// What is spelled of the form, where it is an attribute.
fn attribute_in(alloc: Global, form: &Form) -> Result<Option<Target>, AllocError>
    ensures { IfOk result (λ target. option_map target_view target ≡ option_map target_of (spec_attribute_in (form_view form.now))) }
{
    match form {
        Form::GetAtt(at, attribute) => {
            let text = Text::new(alloc, attribute.as_str())?;
            Ok(Some(Target {
                at: *at,
                attribute: Some(text),
            }))
        }
        _ => Ok(None),
    }
}

/// Spells the attribute in the stack that the token is, where it is one.
fn put_attribute(
    alloc: Global,
    names: &Names,
    stack: NodeId,
    token: &Token,
    homes: &mut Homes,
) -> Result<(), AllocError>
    ensures { OnOk result ((cs : List Placed) (ts : List TokenView) → AreNamesOf names.now cs → AreLocal (entries_in homes.old) cs ts stack → AreLocal (entries_in homes.new) cs (ts ++ token_view token.now ∷ []) stack) }
{
    let found = attribute_in(alloc, &token.form)?;
    let Some(target) = found else {
        return Ok(());
    };
    let name = logical_name(names, target.at);
    put_once(alloc, target, stack, name, homes)
}

fn put_attributes(
    alloc: Global,
    names: &Names,
    table: &Table,
    stack: NodeId,
    homes: &mut Homes,
) -> Result<(), AllocError>
    ensures { OnOk result ((cs : List Placed) → AreNamesOf names.now cs → AreLocal (entries_in homes.old) cs [] stack → AreLocal (entries_in homes.new) cs (tokens_in table.now) stack) }
{
    for number in 0..table.len() {
        let Some(token) = table.token(number) else {
            unreachable!()
        };
        put_attribute(alloc, names, stack, token, homes)?;
    }
    Ok(())
}

/// How the one stack of an application spells its constructs: each element, and each attribute of a construct that a token is,
/// by the construct's logical name (CloudFormation's `Ref` and `Fn::GetAtt`). No other stack spells anything.
///
/// It answers an error only where no memory is found. It looks once at each construct and each token, with two or three
/// look-ups in an index.
pub fn local_homes(
    alloc: Global,
    tree: &Tree,
    names: &Names,
    table: &Table,
    stack: NodeId,
) -> Result<Homes, AllocError>
    requires { AreNamesOf names.now (constructs tree.now) }
    ensures { IfOk result (λ homes. AreLocal (entries_in homes) (constructs tree.now) (tokens_in table.now) stack) }
{
    let mut homes = Homes::new(alloc);
    put_elements(alloc, tree, names, stack, &mut homes)?;
    put_attributes(alloc, names, table, stack, &mut homes)?;
    Ok(homes)
}
