// The words of the command line.
ghost use Rattle.std.specs.Prelude.{◌≡◌};
ghost use Rattle.std.specs.Option.{option_map};
ghost use Rattle.std.specs.List.{list_all};
ghost use Rattle.cdk_words.specs.Settings.{is_setting_word as spec_is_setting_word};
ghost use Rattle.cdk_words.specs.Words.{command_of, words_of, synth_in, eval_in};

use crate::settings::{is_plain_word, is_setting_word};
use cdk_base::Text;

/// A command with its words, borrowed from the words of the command line.
pub enum Command<'a> {
    /// `synth APP OUTDIR [KEY=VALUE]...`: writes the assembly of the application in the file APP, with the settings
    /// laid over its context, into the directory OUTDIR.
    Synth {
        app: &'a str,
        dir: &'a str,
        settings: &'a [Text],
    },
    /// `eval DIR VALUES`: prints what the assembly in the directory DIR comes to under the values of the file VALUES.
    Eval {
        dir: &'a str,
        values: &'a str,
    },
}

fn are_setting_words(words: &[Text]) -> bool
    ensures { result ≡ list_all spec_is_setting_word words.now }
{
    words.iter().all(|word| is_setting_word(word.as_str()))
}

fn synth_of<'a>(app: &'a str, dir: &'a str, settings: &'a [Text]) -> Option<Command<'a>>
    ensures { option_map words_of result ≡ synth_in app.now dir.now settings.now }
{
    if is_plain_word(app) && is_plain_word(dir) && are_setting_words(settings) {
        Some(Command::Synth { app, dir, settings })
    } else {
        None
    }
}

fn eval_of<'a>(dir: &'a str, values: &'a str, further: &[Text]) -> Option<Command<'a>>
    ensures { option_map words_of result ≡ eval_in dir.now values.now further.now }
{
    if is_plain_word(dir) && is_plain_word(values) && further.is_empty() {
        Some(Command::Eval { dir, values })
    } else {
        None
    }
}

/// The command of the words, or `None` exactly where they aren't plain. They are plain where the command's name comes
/// first, then its positional words in order, none of them empty and none beginning with `-`, and then, for `synth`
/// alone, words of settings: such words with a key before their first `=`. Takes no memory.
pub fn plain(words: &[Text]) -> Option<Command<'_>>
    ensures { option_map words_of result ≡ command_of words.now }
{
    let [name, first, second, further @ ..] = words else {
        return None;
    };
    let name = name.as_str();
    let first = first.as_str();
    let second = second.as_str();
    if name == "synth" {
        return synth_of(first, second, further);
    }
    if name == "eval" {
        return eval_of(first, second, further);
    }
    None
}
