// The cut of a text into literals and the keys of whole text markers, without taking memory.
ghost use Rattle.std.specs.Prelude.{◌≡◌, length, option_map};
ghost use Rattle.std.specs.Iterator.{YieldsFirstBy, item_count};
ghost use Rattle.cdk_markers.specs.Cut.{cut_of, first_key, literal_len as spec_literal_len};
ghost use Rattle.cdk_markers.specs.Left.{piece_view, left};

use crate::key::{are_key, key_bytes_len};

/// A part of a text.
#[derive(Clone, Copy)]
pub enum Piece<'a> {
    /// Text that holds no whole text marker. It isn't empty.
    Literal(&'a str),
    /// The key of a whole text marker `${Token[KEY]}`.
    Key(&'a str),
}

/// The pieces of a text that are left, the first first.
#[derive(Drop)]
pub struct Pieces<'a> {
    rest: &'a str,
}

// How long the key is of the whole text marker that the bytes begin with.
fn first_key_len(bytes: &[u8]) -> Option<usize>
    ensures { result ≡ option_map length (first_key bytes.now) }
{
    if !bytes.starts_with(b"${Token[") {
        return None;
    }
    let opened = &bytes[8..];
    let len = key_bytes_len(opened);
    if are_key(&opened[..len]) && opened[len..].starts_with(b"]}") {
        return Some(len);
    }
    None
}

// How many bytes stand before the first whole text marker.
fn literal_len(bytes: &[u8]) -> usize
    ensures { result ≡ spec_literal_len bytes.now }
{
    for at in 0..bytes.len() {
        if first_key_len(&bytes[at..]).is_some() {
            return at;
        }
    }
    bytes.len()
}

impl<'a> Pieces<'a> {
    /// The pieces of the text.
    pub fn of(text: &'a str) -> Pieces<'a>
        ensures { left result ≡ cut_of text.now }
    {
        Pieces { rest: text }
    }
}

impl<'a> Iterator for Pieces<'a> {
    type Item = Piece<'a>;

    ghost next_gives = { YieldsFirstBy piece_view left };

    ghost remaining = { item_count left };

    fn next(&mut self) -> Option<Piece<'a>> {
        let text = self.rest;
        if text.is_empty() {
            return None;
        }
        if let Some(len) = first_key_len(text.as_bytes()) {
            let end = 8 + len;
            self.rest = &text[end + 2..];
            return Some(Piece::Key(&text[8..end]));
        }
        let end = literal_len(text.as_bytes());
        self.rest = &text[end..];
        Some(Piece::Literal(&text[..end]))
    }
}
