// The tokens of an application, and how they are found by their keys.
ghost use Rattle.std.specs.Prelude.{◌≡◌, map, true, IfOk};
ghost use Rattle.serde_json.specs.View.{view as json_view};
ghost use Rattle.cdk_tokens.specs.Token.{key_of, marker};
ghost use Rattle.cdk_tokens.specs.Views.{token_view, are_numbered};

use crate::form::{Form, Token};
use cdk_base::{Text, Value};
use cdk_markers::{list_marker, text_marker};
use cdk_tree::NodeId;
use std::alloc::{AllocError, Global};

// The key of the token of the number.
fn next_key(alloc: Global, hint: &str, number: usize) -> Result<Text, AllocError>
    ensures { IfOk result (λ key. key ≡ key_of hint.now number) }
{
    Ok(Text::from_string(format!(in alloc; "{hint}.{number}")?))
}

// How a token is written where its value stands.
fn marker_of(alloc: Global, list: bool, key: &str) -> Result<Value, AllocError>
    ensures { IfOk result (λ v. json_view v ≡ marker list key.now) }
{
    if list {
        return list_marker(alloc, key);
    }
    let text = text_marker(alloc, key)?;
    Value::try_from_str(alloc, text.as_str())
}

// The key of the token of the number, and how the token is written where its value stands.
fn key_and_marker(
    alloc: Global,
    hint: &str,
    number: usize,
    list: bool,
) -> Result<(Text, Value), AllocError>
    ensures { IfOk result (λ made. (made.0 ≡ key_of hint.now number) × (json_view made.1 ≡ marker list (key_of hint.now number))) }
{
    let key = next_key(alloc, hint, number)?;
    let value = marker_of(alloc, list, key.as_str())?;
    Ok((key, value))
}

/// All tokens of an application, in the order of their numbers, from 0.
#[derive(Drop)]
pub struct Table {
    tokens: Vec<Token>,
    ghost numbered: { are_numbered 0 (map token_view tokens.items) ≡ true },
}

impl Table {
    ghost use Rattle.std.specs.Prelude.{[], ◌∷◌, ◌++◌, length, slice_get, option_map, IfOk, OnOk};
    ghost use Rattle.serde_json.specs.View.{view as json_view};
    ghost use Rattle.cdk_tokens.specs.Token.{Token as TokenView, find_token, key_of, marker};
    ghost use Rattle.cdk_tokens.specs.TableView.{tokens_in};
    ghost use Rattle.cdk_tokens.specs.Views.{form_view};

    /// No tokens yet.
    pub(crate) fn new(alloc: Global) -> Table
        ensures { tokens_in result ≡ [] }
    {
        Table {
            tokens: Vec::new(alloc),
        }
    }

    /// How many tokens there are.
    pub fn len(&self) -> usize
        ensures { result ≡ length (tokens_in self.now) }
    {
        self.tokens.len()
    }

    /// The token of the number. None exactly where there are fewer tokens.
    pub fn token(&self, n: usize) -> Option<&Token>
        ensures { option_map (λ t. token_view t.now) result ≡ slice_get (tokens_in self.now) n }
    {
        self.tokens.get(n)
    }

    /// The number of the token of a key. None exactly where no token has it. It looks at one token, and takes no memory.
    pub fn find(&self, key: &str) -> Option<usize>
        ensures { result ≡ find_token (tokens_in self.now) key.now }
    {
        let tokens = self.tokens.as_slice();
        // A key ends in its token's number, so no other token can have it.
        let (_, digits) = key.rsplit_once('.')?;
        let number: usize = digits.parse().ok()?;
        let token = tokens.get(number)?;
        if token.key.as_str() == key {
            Some(number)
        } else {
            None
        }
    }

    /// One token more. Answers how it is written where its value stands.
    pub(crate) fn push(
        &mut self,
        alloc: Global,
        hint: &str,
        owner: NodeId,
        list: bool,
        form: Form,
    ) -> Result<Value, AllocError>
        ensures tokens { OnOk result (tokens_in self.new ≡ tokens_in self.old ++ record { key = key_of hint.now (length (tokens_in self.old)); owner = owner; is_list = list; form = form_view form } ∷ []) }
        ensures value { IfOk result (λ v. json_view v ≡ marker list (key_of hint.now (length (tokens_in self.old)))) }
    {
        let (key, value) = match key_and_marker(alloc, hint, self.tokens.len(), list) {
            Ok(made) => made,
            Err(error) => {
                // One call: at the end of the scope each kind of form would be dropped in place, which is slow to prove.
                drop(form);
                return Err(error);
            }
        };
        self.tokens.push(Token {
            key,
            owner,
            list,
            form,
        })?;
        Ok(value)
    }
}
