// The text of a `Fn::Sub`, its parts evaluated and joined (CloudFormation: Fn::Sub).
ghost use Rattle.std.specs.Prelude.{◌≡◌, ◌&&◌, not, ℕ, List, [], Bool, true, Some, None, OnOk, IfOk, map, if◌then◌else◌, bytes_eq, is_some, option_copied, option_map};
ghost use Rattle.cdk_eval.specs.SubText.{sub_parts as spec_sub_parts, asked};
ghost use Rattle.cdk_eval.specs.Template.{sub_outcome as spec_sub_outcome, ref_outcome as spec_ref_outcome};
ghost use Rattle.cdk_eval.specs.Views.{outcome_view};
ghost use Rattle.cdk_texts.specs.Steps.{part_view, asked_view};
ghost use Rattle.cdk_scopes.specs.Scopes.{scope_view, IsSound, has_name};
ghost use Rattle.cdk_intrinsics.specs.Substitution.{named_at, look, asked_by as spec_asked_by, part_by, items_by, joined_items, AreUsed, IsUsedIn, IsPieceOf};

use crate::names::{attribute_outcome, ref_outcome};
use cdk_base::{Text, Value, text_of};
use cdk_eval::{EvalFault, Outcome};
use cdk_scopes::{NameSet, Scope};
use cdk_texts::{Asked, Part, asked_by, sub_parts};
use std::alloc::{AllocError, Global};
use std::collections::BTreeMap;

/// The outcomes of the members of a Sub's object, by their names.
#[derive(Drop)]
pub struct Named<'a> {
    outcomes: BTreeMap<&'a str, Outcome>,
}

impl<'a> Named<'a> {
    pub fn new(alloc: Global) -> Named<'a>
        ensures { (n : List ℕ) → named_at result n ≡ None }
    {
        Named {
            outcomes: BTreeMap::new(alloc),
        }
    }

    fn get(&self, name: &str) -> Option<&Outcome>
        ensures { option_map (λ o. outcome_view o.now) result ≡ named_at self.now name.now }
    {
        self.outcomes.get(name)
    }

    pub fn has(&self, name: &str) -> bool
        ensures { result ≡ is_some (named_at self.now name.now) }
    {
        self.get(name).is_some()
    }

    pub fn keep(&mut self, name: &'a str, outcome: Outcome) -> Result<(), AllocError>
        ensures { OnOk result ((n : List ℕ) → named_at self.new n ≡ (if bytes_eq name.now n then Some (outcome_view outcome) else named_at self.old n)) }
    {
        self.outcomes.insert(name, outcome)?;
        Ok(())
    }
}

fn put_used<'a>(used: &mut NameSet<'a>, part: &Part<'a>) -> Result<(), AllocError>
    ensures { OnOk result ((u : List ℕ → Bool) → ((n : List ℕ) → has_name used.new n ≡ true → u n ≡ true) → ((n : List ℕ) → has_name used.old n ≡ true → u n ≡ true) × IsUsedIn u (part_view part.now)) }
{
    let Part::Hole(hole) = part else {
        return Ok(());
    };
    let Asked::Named(name) = asked_by(hole) else {
        return Ok(());
    };
    used.put(name)
}

/// The names that the parts ask of the Sub's object.
pub fn used_names<'a>(alloc: Global, parts: &[Part<'a>]) -> Result<NameSet<'a>, AllocError>
    ensures { IfOk result (λ used. AreUsed (has_name used) (map part_view parts.now)) }
{
    let mut used = NameSet::new(alloc);
    for part in parts {
        put_used(&mut used, part)?;
    }
    Ok(used)
}

/// Whether the text names the member, and none of its name is kept yet.
pub fn is_wanted(used: &NameSet<'_>, named: &Named<'_>, name: &str) -> bool
    ensures { result ≡ (has_name used.now name.now && not (is_some (named_at named.now name.now))) }
{
    used.has(name) && !named.has(name)
}

/// The text of a part, gone as none, or the part's fault. A value without a text has the fault `NotText`, told last.
#[derive(Drop)]
enum Piece {
    Text(Text),
    NoText,
    Gone,
    Fault(EvalFault),
}

fn piece_of(alloc: Global, outcome: &Outcome) -> Result<Piece, AllocError>
    ensures { IfOk result (λ p. IsPieceOf p (outcome_view outcome.now)) }
{
    match outcome {
        Outcome::Value(value) => match text_of(alloc, value)? {
            Some(text) => Ok(Piece::Text(text)),
            None => Ok(Piece::NoText),
        },
        Outcome::Gone => Ok(Piece::Gone),
        Outcome::Fault(fault) => Ok(Piece::Fault(*fault)),
    }
}

fn named_piece(
    alloc: Global,
    scope: &Scope<'_, '_>,
    named: &Named<'_>,
    name: &str,
) -> Result<Piece, AllocError>
    requires { IsSound scope.now }
    ensures { IfOk result (λ p. IsPieceOf p (look named.now (spec_ref_outcome (scope_view scope.now) name.now) name.now)) }
{
    match named.get(name) {
        Some(outcome) => piece_of(alloc, outcome),
        None => {
            let outcome = ref_outcome(alloc, scope, name)?;
            piece_of(alloc, &outcome)
        }
    }
}

fn asked_piece(
    alloc: Global,
    scope: &Scope<'_, '_>,
    named: &Named<'_>,
    hole: &str,
) -> Result<Piece, AllocError>
    requires { IsSound scope.now }
    ensures { IfOk result (λ p. IsPieceOf p (spec_asked_by (scope_view scope.now) (look named.now) (asked hole.now))) }
{
    match asked_by(hole) {
        Asked::Spelled(spelled) => {
            let text = format!(in alloc; "${{{spelled}}}")?;
            Ok(Piece::Text(Text::from_string(text)))
        }
        Asked::Attribute(name, attribute) => {
            let outcome = attribute_outcome(alloc, scope, name, attribute)?;
            piece_of(alloc, &outcome)
        }
        Asked::Named(name) => named_piece(alloc, scope, named, name),
    }
}

fn part_piece(
    alloc: Global,
    scope: &Scope<'_, '_>,
    named: &Named<'_>,
    part: &Part<'_>,
) -> Result<Piece, AllocError>
    requires { IsSound scope.now }
    ensures { IfOk result (λ p. IsPieceOf p (part_by (scope_view scope.now) (look named.now) (part_view part.now))) }
{
    match part {
        Part::Literal(text) => Ok(Piece::Text(Text::new(alloc, text)?)),
        Part::Hole(hole) => asked_piece(alloc, scope, named, hole),
    }
}

/// The parts evaluated from the left and joined: the first fault, else `NotText` where a part has no text, else the
/// text.
pub fn sub_outcome(
    alloc: Global,
    scope: &Scope<'_, '_>,
    parts: &[Part<'_>],
    named: &Named<'_>,
) -> Result<Outcome, AllocError>
    requires { IsSound scope.now }
    ensures { IfOk result (λ o. outcome_view o ≡ joined_items (items_by (scope_view scope.now) (look named.now) (map part_view parts.now))) }
{
    let mut text = String::new(alloc);
    let mut has_text = true;
    for part in parts {
        match part_piece(alloc, scope, named, part)? {
            Piece::Text(piece) => text.push_str(piece.as_str())?,
            Piece::NoText => has_text = false,
            Piece::Gone => {}
            Piece::Fault(fault) => return Ok(Outcome::Fault(fault)),
        }
    }
    if !has_text {
        return Ok(Outcome::Fault(EvalFault::NotText));
    }
    Ok(Outcome::Value(Value::String(text)))
}

/// `Fn::Sub` of a text alone.
pub fn plain_sub(alloc: Global, scope: &Scope<'_, '_>, text: &str) -> Result<Outcome, AllocError>
    requires { IsSound scope.now }
    ensures { IfOk result (λ o. outcome_view o ≡ spec_sub_outcome (scope_view scope.now) [] (spec_sub_parts text.now)) }
{
    let Some(parts) = sub_parts(alloc, text)? else {
        return Ok(Outcome::Fault(EvalFault::BadIntrinsic));
    };
    let none = Named::new(alloc);
    sub_outcome(alloc, scope, parts.as_slice(), &none)
}
