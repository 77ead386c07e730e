// Stacks that reach themselves by dependencies.
ghost use Rattle.std.specs.Prelude.{◌≡◌, ℕ, List, [], ◌∷◌, true, false, map, option_map, IfOk, OnOk};
ghost use Rattle.std.specs.Ordering.{nat_cmp};
ghost use Rattle.std.specs.Cmp.Lexicographic.{slice_cmp};
ghost use Rattle.std.specs.BTreeMap.{get_by};
ghost use Rattle.cdk_eval.specs.Manifest.{StackArtifact, comes_back as spec_comes_back, cyclic};
ghost use Rattle.cdk_artifacts.specs.Found.{texts_of, has_name, stack_view};
ghost use Rattle.cdk_artifacts.specs.Ways.{leads_in, IsIndex, Grows, Pushed};

use crate::name_set::NameSet;
use crate::stacks::Stack;
use cdk_base::List;
use std::alloc::{AllocError, Global};
use std::collections::BTreeMap;

/// The stacks by their ids.
#[derive(Drop)]
struct Index<'s, 'm> {
    stacks: BTreeMap<&'m str, &'s Stack<'m>>,
}

impl<'s, 'm> Index<'s, 'm> {
    fn of_stacks(alloc: Global, stacks: &'s [Stack<'m>]) -> Result<Index<'s, 'm>, AllocError>
        ensures { IfOk result (λ index. IsIndex (map stack_view stacks.now) index) }
    {
        let mut by_id = BTreeMap::new(alloc);
        for number in (0..stacks.len()).rev() {
            let stack = &stacks[number];
            by_id.insert(stack.id, stack)?;
        }
        Ok(Index { stacks: by_id })
    }

    fn get(&self, id: &str) -> Option<&'s Stack<'m>>
        ensures { result ≡ get_by (λ k. slice_cmp nat_cmp id.now k.now) self.now.stacks }
    {
        self.stacks.get(id).copied()
    }
}

fn push_unseen<'m>(
    seen: &mut NameSet<'m>,
    open_ids: &mut List<&'m str>,
    id: &'m str,
) -> Result<(), AllocError>
    ensures { OnOk result (Grows (id.now ∷ []) (has_name seen.old) (has_name seen.new) (texts_of open_ids.old) (texts_of open_ids.new) × (has_name seen.new id.now ≡ true)) }
{
    if seen.has(id) {
        return Ok(());
    }
    seen.put(id)?;
    open_ids.push(id)
}

/// Puts the stacks on which one depends to those that are open, each once; or tells that one is the goal.
fn push_all<'m>(
    dependencies: &[&'m str],
    goal: &str,
    seen: &mut NameSet<'m>,
    open_ids: &mut List<&'m str>,
) -> Result<bool, AllocError>
    ensures { IfOk result (λ found. Pushed found goal.now (texts_of dependencies.now) (has_name seen.old) (has_name seen.new) (texts_of open_ids.old) (texts_of open_ids.new)) }
{
    for id in dependencies {
        if *id == goal {
            return Ok(true);
        }
        push_unseen(seen, open_ids, id)?;
    }
    Ok(false)
}

/// The same for the stack of an id.
fn push_dependencies<'m>(
    index: &Index<'_, 'm>,
    id: &str,
    goal: &str,
    seen: &mut NameSet<'m>,
    open_ids: &mut List<&'m str>,
) -> Result<bool, AllocError>
    ensures { IfOk result (λ found. Pushed found goal.now (leads_in index.now id.now) (has_name seen.old) (has_name seen.new) (texts_of open_ids.old) (texts_of open_ids.new)) }
{
    match index.get(id) {
        Some(stack) => push_all(stack.dependencies.as_slice(), goal, seen, open_ids),
        None => Ok(false),
    }
}

/// Whether the stack reaches itself, where nothing is seen yet and nothing waits.
fn comes_back<'m>(
    index: &Index<'_, 'm>,
    id: &str,
    seen: &mut NameSet<'m>,
    waiting: &mut List<&'m str>,
) -> Result<bool, AllocError>
    requires unseen { (n : List ℕ) → has_name seen.old n ≡ false }
    requires none_waiting { waiting.old ≡ [] }
    ensures { IfOk result (λ found. (ss : List StackArtifact) → IsIndex ss index.now → found ≡ spec_comes_back ss id.now) }
{
    if push_dependencies(index, id, id, seen, waiting)? {
        return Ok(true);
    }
    'search: for _ in 0..u64::MAX {
        let Some(next) = waiting.pop() else {
            return Ok(false);
        };
        if push_dependencies(index, next, id, seen, waiting)? {
            return Ok(true);
        }
    }
    Err(AllocError)
}

/// Whether the stack reaches itself by dependencies. It takes as many steps as the stacks that it reaches have
/// dependencies.
fn reaches_itself(alloc: Global, index: &Index<'_, '_>, id: &str) -> Result<bool, AllocError>
    ensures { IfOk result (λ found. (ss : List StackArtifact) → IsIndex ss index.now → found ≡ spec_comes_back ss id.now) }
{
    let mut seen = NameSet::new(alloc);
    let mut waiting = List::new(alloc);
    comes_back(index, id, &mut seen, &mut waiting)
}

fn is_cyclic(
    alloc: Global,
    index: &Index<'_, '_>,
    placed: &NameSet<'_>,
    id: &str,
) -> Result<bool, AllocError>
    ensures { IfOk result (λ found. (ss : List StackArtifact) → IsIndex ss index.now → ((n : List ℕ) → has_name placed.now n ≡ true → spec_comes_back ss n ≡ false) → found ≡ spec_comes_back ss id.now) }
{
    if placed.has(id) {
        return Ok(false);
    }
    reaches_itself(alloc, index, id)
}

/// The least artifact id of a stack that reaches itself, where those that are placed do not. A search is made for each
/// that is not placed: none where all are.
pub fn first_cycle<'m>(
    alloc: Global,
    stacks: &[Stack<'m>],
    placed: &NameSet<'_>,
) -> Result<Option<&'m str>, AllocError>
    requires { (n : List ℕ) → has_name placed.now n ≡ true → spec_comes_back (map stack_view stacks.now) n ≡ false }
    ensures { IfOk result (λ id. option_map (λ i. i.now) id ≡ cyclic (map stack_view stacks.now)) }
{
    let index = Index::of_stacks(alloc, stacks)?;
    for stack in stacks {
        if is_cyclic(alloc, &index, placed, stack.id)? {
            return Ok(Some(stack.id));
        }
    }
    Ok(None)
}
