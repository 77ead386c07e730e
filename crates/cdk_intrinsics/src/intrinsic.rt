// The intrinsic functions by their keys (CloudFormation's intrinsic function reference).
ghost use Rattle.std.specs.Prelude.{◌≡◌};
ghost use Rattle.cdk_intrinsics.specs.Forms.{intrinsic_of as spec_intrinsic_of, intrinsic_at as spec_intrinsic_at};
ghost use Rattle.cdk_scopes.specs.Scopes.{scope_view};

use crate::forms::{PairForm, is_barred};
use cdk_scopes::Scope;

/// An intrinsic function.
#[derive(Clone, Copy)]
pub enum Intrinsic {
    Ref,
    GetAtt,
    Pair(PairForm),
    Sub,
    If,
    FindInMap,
    ImportValue,
}

fn intrinsic_of(key: &str) -> Option<Intrinsic>
    ensures { result ≡ spec_intrinsic_of key.now }
{
    if key == "Ref" {
        return Some(Intrinsic::Ref);
    }
    if key == "Fn::GetAtt" {
        return Some(Intrinsic::GetAtt);
    }
    if key == "Fn::Join" {
        return Some(Intrinsic::Pair(PairForm::Join));
    }
    if key == "Fn::Select" {
        return Some(Intrinsic::Pair(PairForm::Select));
    }
    if key == "Fn::Split" {
        return Some(Intrinsic::Pair(PairForm::Split));
    }
    if key == "Fn::Sub" {
        return Some(Intrinsic::Sub);
    }
    if key == "Fn::If" {
        return Some(Intrinsic::If);
    }
    if key == "Fn::FindInMap" {
        return Some(Intrinsic::FindInMap);
    }
    if key == "Fn::ImportValue" {
        return Some(Intrinsic::ImportValue);
    }
    None
}

/// The intrinsic function of the key, where it may stand in the scope.
pub fn intrinsic_at(scope: &Scope<'_, '_>, key: &str) -> Option<Intrinsic>
    ensures { result ≡ spec_intrinsic_at key.now (scope_view scope.now).is_operand }
{
    if is_barred(scope, key) {
        return None;
    }
    intrinsic_of(key)
}
