// Values of names, as words of the command line give them.
ghost use Rattle.std.specs.Prelude.{◌≡◌, ◌++◌, ℕ, List, IfOk, MatchOption, [], ◌∷◌, length, codes};
ghost use Rattle.template_text.specs.Names.{IsValueName};
ghost use Rattle.template_text.specs.Rendering.{Values};
ghost use Rattle.pf_tool.specs.Texts.{texts};
ghost use Rattle.pf_tool.specs.Defines.{DefinesFirst, DefinesNone, Define, spelled};

use pf_io::{Memory, Text};
use std::alloc::Global;
use std::marker::Model;
use template_text::is_value_name;

/// Words `-D NAME=VALUE` and `-DNAME=VALUE`, which contracts see as the pairs that they give.
#[derive(Drop)]
pub struct Defines<'a> {
    words: &'a [String],
}

impl<'a> Model for Defines<'a> {
    ghost use Rattle.std.specs.Prelude.{[]};
    ghost use Rattle.template_text.specs.Rendering.{Values};
    ghost use Rattle.pf_tool.specs.Texts.{texts};
    ghost use Rattle.pf_tool.specs.Defines.{Define, values_in};

    ghost Value = { Values };

    ghost view = { λ d. values_in (texts d.words.now) };

    ghost invariant = { λ d. Define (texts d.words.now) (values_in (texts d.words.now)) [] };
}

// The name and the value of `NAME=VALUE`.
fn pair_of(text: &str) -> Option<(&str, &str)>
    ensures { MatchOption result ((name value : List ℕ) → IsValueName name → text.now ≡ spelled name value → ⊥) (λ pair. IsValueName pair.0.now × (text.now ≡ spelled pair.0.now pair.1.now)) }
{
    let (name, value) = text.split_once('=')?;
    if is_value_name(name) {
        Some((name, value))
    } else {
        None
    }
}

// The pair of the word `-DNAME=VALUE`.
fn pair_in_word(word: &str) -> Option<(&str, &str)>
    ensures { MatchOption result ((name value : List ℕ) → IsValueName name → word.now ≡ codes "-D" ++ spelled name value → ⊥) (λ pair. IsValueName pair.0.now × (word.now ≡ codes "-D" ++ spelled pair.0.now pair.1.now)) }
{
    pair_of(word.strip_prefix("-D")?)
}

// The pair that the first word is, and the words behind it.
fn pair_first(words: &[String]) -> Option<(&str, &str, &[String])>
    ensures { MatchOption result ((name value : List ℕ) (rest : List (List ℕ)) → IsValueName name → texts words.now ≡ spelled name value ∷ rest → ⊥) (λ found. IsValueName found.0.now × (texts words.now ≡ spelled found.0.now found.1.now ∷ texts found.2.now)) }
{
    let [pair, rest @ ..] = words else {
        return None;
    };
    let (name, value) = pair_of(pair.as_str())?;
    Some((name, value, rest))
}

// The pair that stands first, and the words behind it.
fn first_define(words: &[String]) -> Option<(&str, &str, &[String])>
    ensures { MatchOption result (DefinesNone (texts words.now)) (λ found. DefinesFirst (texts words.now) found.0.now found.1.now (texts found.2.now)) }
{
    let [first, behind @ ..] = words else {
        return None;
    };
    if first.as_str() == "-D" {
        return pair_first(behind);
    }
    let (name, value) = pair_in_word(first.as_str())?;
    Some((name, value, behind))
}

/// The pairs that stand first in words, and the words behind them.
pub(crate) fn cut_defines(words: &[String]) -> (Defines<'_>, &[String])
    ensures pairs { Define (texts words.now) result.0 (texts result.1.now) }
    ensures no_more { DefinesNone (texts result.1.now) }
{
    let mut rest = words;
    while let Some((_, _, behind)) = first_define(rest) {
        rest = behind;
    }
    let front = &words[..words.len() - rest.len()];
    (Defines { words: front }, rest)
}

// The pairs that words give, owned.
fn pairs_of(alloc: Global, words: &[String]) -> Result<Vec<(Text, Text)>, Memory>
    ensures { IfOk result (λ pairs. (values : Values) → Define (texts words.now) values [] → pairs.items ≡ values) }
{
    let mut pairs = Vec::new(alloc);
    let mut rest = words;
    while let Some((name, value, behind)) = first_define(rest) {
        let name = Text::copy(alloc, name)?;
        let value = Text::copy(alloc, value)?;
        pairs.push((name, value))?;
        rest = behind;
    }
    Ok(pairs)
}

impl Defines<'_> {
    /// The pairs, owned.
    pub(crate) fn to_pairs(&self, alloc: Global) -> Result<Vec<(Text, Text)>, Memory>
        ensures { IfOk result (λ pairs. pairs.items ≡ self.now) }
    {
        pairs_of(alloc, self.words)
    }
}
