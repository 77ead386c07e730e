// Which texts of Subs may not stand where they do.
ghost use Rattle.std.specs.Prelude.{◌≡◌};
ghost use Rattle.cdk_language.specs.Schema.{is_wrong_sub_text as spec_is_wrong_sub_text, is_barred_piece as spec_is_barred_piece};
ghost use Rattle.cdk_members.specs.SubView.{piece_view};

use cdk_language::Within;
use cdk_members::{FirstPiece, SubPiece, first_piece};

fn is_barred_piece(within: Within, piece: SubPiece<'_>) -> bool
    ensures { result ≡ spec_is_barred_piece within (piece_view piece.entry) }
{
    match within {
        Within::Construct => false,
        Within::Condition => match piece {
            SubPiece::Kept(_) => false,
            SubPiece::Name(name) => name == "AWS::NoValue",
            SubPiece::Attribute(_, _) => true,
        },
    }
}

/// Whether the text of a Sub can't be cut into pieces, or has a piece that may not stand here.
pub fn is_wrong_sub_text(within: Within, text: &str) -> bool
    ensures { result ≡ spec_is_wrong_sub_text within text.now }
{
    let mut rest = text;
    loop {
        match first_piece(rest) {
            FirstPiece::Literal => return false,
            FirstPiece::Wrong => return true,
            FirstPiece::Piece { piece, after, .. } => {
                if is_barred_piece(within, piece) {
                    return true;
                }
                rest = after;
            }
        }
    }
}
