// Texts that are joined.
ghost use Rattle.std.specs.Prelude.{◌≡◌, IfOk, option_map, string_bytes};
ghost use Rattle.serde_json.specs.View.{items_view};
ghost use Rattle.cdk_eval.specs.Texts.{item_texts, join_with};

use cdk_base::{Value, text_of};
use std::alloc::{AllocError, Global};

/// The texts of the items with the delimiter between them, unless an item has no text as a literal (CloudFormation:
/// Fn::Join).
pub fn joined(alloc: Global, delimiter: &str, items: &[Value]) -> Result<Option<String>, AllocError>
    ensures { IfOk result (λ t. option_map string_bytes t ≡ option_map (join_with delimiter.now) (item_texts (items_view items.now))) }
{
    let mut text = String::new(alloc);
    let Some((first, others)) = items.split_first() else {
        return Ok(Some(text));
    };
    match text_of(alloc, first)? {
        Some(piece) => text.push_str(piece.as_str())?,
        None => return Ok(None),
    }
    for item in others {
        match text_of(alloc, item)? {
            Some(piece) => {
                text.push_str(delimiter)?;
                text.push_str(piece.as_str())?;
            }
            None => return Ok(None),
        }
    }
    Ok(Some(text))
}
