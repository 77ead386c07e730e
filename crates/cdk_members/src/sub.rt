// The text of an `Fn::Sub`, piece by piece, without taking memory.
ghost use Rattle.std.specs.Prelude.{◌≡◌, ◌<◌, length, option_map};
ghost use Rattle.cdk_language.specs.Sub.{around as spec_around, piece_of as spec_piece_of, first_piece_of, is_attribute as spec_is_attribute, is_variable_name as spec_is_variable_name};
ghost use Rattle.cdk_members.specs.SubView.{piece_view, first_view};

/// What stands between `${` and `}` in the text of an `Fn::Sub`.
#[derive(Clone, Copy)]
pub enum SubPiece<'a> {
    /// `${!X}`: the literal text `${X}`, told by its X.
    Kept(&'a str),
    /// `${X}`: a variable, a pseudo parameter or a path.
    Name(&'a str),
    /// `${X.A}`: the attribute A of the resource at the path X.
    Attribute(&'a str, &'a str),
}

/// The text of an `Fn::Sub` up to its first piece.
#[derive(Clone, Copy)]
pub enum FirstPiece<'a> {
    /// There is no `${`: the whole text is literal.
    Literal,
    /// A `}` lacks, the name is empty, or the attribute is none.
    Wrong,
    /// The literal text before the piece, the piece, and what comes after its `}`.
    Piece {
        before: &'a str,
        piece: SubPiece<'a>,
        after: &'a str,
    },
}

/// Whether the text is 1 or more letters, digits and dots.
pub fn is_attribute(text: &str) -> bool
    ensures { result ≡ spec_is_attribute text.now }
{
    for byte in text.as_bytes() {
        if !byte.is_ascii_alphanumeric() && *byte != b'.' {
            return false;
        }
    }
    !text.is_empty()
}

/// Whether the text is 1 or more letters and digits, as the names of a Sub's variables are.
pub fn is_variable_name(text: &str) -> bool
    ensures { result ≡ spec_is_variable_name text.now }
{
    for byte in text.as_bytes() {
        if !byte.is_ascii_alphanumeric() {
            return false;
        }
    }
    !text.is_empty()
}

fn around<'a>(text: &'a str, mark: &str) -> Option<(&'a str, &'a str)>
    requires { 0 < length mark.now }
    ensures { option_map (λ p. (p.0.now, p.1.now)) result ≡ spec_around mark.now text.now }
{
    text.split_once(mark)
}

fn piece_of<'a>(name: &'a str) -> Option<SubPiece<'a>>
    ensures { option_map piece_view result ≡ spec_piece_of name.now }
{
    if let Some(kept) = name.strip_prefix("!") {
        return Some(SubPiece::Kept(kept));
    }
    let Some((path, attribute)) = around(name, ".") else {
        if name.is_empty() {
            return None;
        }
        return Some(SubPiece::Name(name));
    };
    if path.is_empty() || !is_attribute(attribute) {
        return None;
    }
    Some(SubPiece::Attribute(path, attribute))
}

/// The text up to its first piece.
pub fn first_piece<'a>(text: &'a str) -> FirstPiece<'a>
    ensures { first_view result ≡ first_piece_of text.now }
{
    let Some((before, opened)) = around(text, "${") else {
        return FirstPiece::Literal;
    };
    let Some((name, after)) = around(opened, "}") else {
        return FirstPiece::Wrong;
    };
    match piece_of(name) {
        Some(piece) => FirstPiece::Piece {
            before,
            piece,
            after,
        },
        None => FirstPiece::Wrong,
    }
}
