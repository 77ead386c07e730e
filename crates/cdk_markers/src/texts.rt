// The cut of a text.
ghost use Rattle.std.specs.Prelude.{◌≡◌};
ghost use Rattle.cdk_markers.specs.Cut.{cut_of};
ghost use Rattle.cdk_markers.specs.Left.{left};
ghost use Rattle.cdk_markers.specs.Pieces.{IsCut};

use crate::cutting::Pieces;

/// The cut of the text: whole text markers give keys, and what stands between them literals. The time is that of a few
/// walks over the text.
pub fn pieces(text: &str) -> Pieces<'_>
    ensures cut { IsCut text.now (left result) }
    ensures computed { left result ≡ cut_of text.now }
{
    Pieces::of(text)
}
