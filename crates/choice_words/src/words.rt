//! All words of a command line that say whose rules decide.

ghost use Rattle.std.specs.Prelude.{◌≡◌, map};
ghost use Rattle.choice_words.specs.Words.{at_first, chosen};

use crate::field::{Field, with_field};
use crate::word::said;
use due_model::config::Choices;

/// Whose rules decide by the words of a command line: the daemon's where they are asked for, this project's else, with object text read as Nagios `reads` it or not, and in each
/// field that a word FIELD=own or FIELD=nagios names as the last such word says. None, where a word is none of these.
pub fn choices_of(as_nagios: bool, reads: bool, words: &[&str]) -> Option<Choices>
    ensures { result ≡ chosen (at_first as_nagios reads) (map (λ word. word.now) words.now) }
{
    chosen(at_first(as_nagios, reads), words)
}

/// Those that the words begin with.
fn at_first(as_nagios: bool, reads: bool) -> Choices
    ensures { result ≡ at_first as_nagios reads }
{
    if as_nagios {
        Choices::nagios()
    } else {
        with_field(Choices::own(), Field::Text, reads)
    }
}

/// The choices after words, one after another.
fn chosen(choices: Choices, words: &[&str]) -> Option<Choices>
    ensures { result ≡ chosen choices (map (λ word. word.now) words.now) }
{
    let mut so_far = choices;
    for word in words {
        match said(word) {
            Some(choice) => so_far = with_field(so_far, choice.field, choice.daemons),
            None => return None,
        };
    }
    Some(so_far)
}
