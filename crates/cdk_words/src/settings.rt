// The settings among the words: `KEY=VALUE`.
ghost use Rattle.std.specs.Prelude.{◌≡◌, true, map, All, IfOk, option_map};
ghost use Rattle.std.specs.List.{list_all};
ghost use Rattle.cdk_words.specs.Settings.{around_equals as spec_around_equals, setting_in, settings_in, is_plain_word as spec_is_plain_word, is_setting_word as spec_is_setting_word, spelled, HasPlainKey};

use cdk_base::{List, Setting, Text};
use std::alloc::{AllocError, Global};

/// Whether the word isn't empty and doesn't begin with `-`.
pub(crate) fn is_plain_word(word: &str) -> bool
    ensures { result ≡ spec_is_plain_word word.now }
{
    match word.as_bytes() {
        [] => false,
        [first, ..] => *first != b'-',
    }
}

/// What stands before the first `=` and after it.
fn around_equals(word: &str) -> Option<(&str, &str)>
    ensures { option_map (λ p. (p.0.now, p.1.now)) result ≡ spec_around_equals word.now }
{
    word.split_once('=')
}

/// Whether the word is plain, and its first `=` has a key before it.
pub(crate) fn is_setting_word(word: &str) -> bool
    ensures { result ≡ spec_is_setting_word word.now }
{
    let Some((key, _)) = around_equals(word) else {
        return false;
    };
    is_plain_word(word) && !key.is_empty()
}

/// The setting of a word, cut at its first `=`.
fn setting_of(alloc: Global, word: &str) -> Result<Setting, AllocError>
    ensures { IfOk result (λ setting. setting ≡ setting_in word.now) }
{
    let (key, value) = around_equals(word).unwrap_or((word, ""));
    let key = Text::new(alloc, key)?;
    let value = Text::new(alloc, value)?;
    Ok(Setting { key, value })
}

/// The settings of the words, in their order, each cut at its first `=` into its key and its value. So a word that
/// `plain` lets through as a setting is spelled as its key, `=` and its value, and no key has a `=`. A word without a
/// `=` is a key of the empty value. The error is want of memory alone.
pub fn settings_of(alloc: Global, words: &[Text]) -> Result<List<Setting>, AllocError>
    ensures value { IfOk result (λ settings. settings ≡ settings_in words.now) }
    ensures spelled { IfOk result (λ settings. list_all spec_is_setting_word words.now ≡ true → map spelled settings ≡ words.now) }
    ensures keys { IfOk result (All HasPlainKey) }
{
    let mut settings = List::new(alloc);
    for word in words {
        settings.push(setting_of(alloc, word.as_str())?)?;
    }
    Ok(settings)
}
