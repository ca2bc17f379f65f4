//! The values of the words of an argument.

ghost use Rattle.std.specs.Prelude.{◌≡◌, ◌⊎◌, IfErr, IfOk, None, Some, map, option_map};
ghost use Rattle.std.specs.Prelude.{string_bytes};
ghost use Rattle.clap.specs.Words.{all_of, first_of, found_of, rows_of};
ghost use Rattle.cli_arguments.specs.Arguments.{form_of};
ghost use Rattle.cli_arguments.specs.TableView.{argument_in, count_in};
ghost use Rattle.cli_arguments.specs.ValuesView.{amount_view, texts_view, values_view};
ghost use Rattle.cli_arguments.specs.InnerWords.{argument_values};
ghost use Rattle.cli_arguments.specs.LineFaults.{IsRefusalUnlessMemory, IsRefusedAs, IsRefusedBy, first_other};
ghost use Rattle.cli_arguments.specs.LineFaults.{form_refusal, other_form, other_in, refusal_among, refusal_at};
ghost use Rattle.cli_arguments.specs.LineFaults.{without_value};
ghost use Rattle.cli_arguments.specs.Lines.{all_spelled, all_values, amount_spelled, if_some, is_set, values_at};
ghost use Rattle.cli_arguments.specs.Lines.{values_spelled, words_by};

use crate::commands::{Argument, Count, Form, form_of, form_text};
use crate::escapes::shown;
use crate::line_faults::{LineFault, refused};
use crate::values::{Amount, Values};
use clap::ArgMatches;
use std::alloc::{AllocError, Global};
use text_values::Word;

/// The words of an argument, by their number in a line.
#[derive(Clone, Copy)]
enum Words<'m, 'a> {
    One(&'a str),
    Several(&'m [&'a str]),
    Perhaps(Option<&'a str>),
    Often(Option<&'m [&'a str]>),
    Flag(bool),
}

/// The value of a name, if it is present.
fn value<'a>(matches: &ArgMatches<'a>, id: &str) -> Option<&'a str>
    ensures { option_map (λ s. s.now) result ≡ first_of id.now (rows_of (found_of matches.now)) }
{
    matches.get_str(id)
}

/// The values of a name, in the order of the words, if any is present.
fn values<'m, 'a>(matches: &'m ArgMatches<'a>, id: &str) -> Option<&'m [&'a str]>
    ensures { option_map (λ s. map (λ v. v.now) s.now) result
        ≡ all_of id.now (rows_of (found_of matches.now)) }
{
    matches.get_strs(id)
}

/// Whether a flag is present, for which `clap` then has the value `true`.
fn is_set(matches: &ArgMatches, id: &str) -> bool
    ensures { result ≡ is_set id.now (rows_of (found_of matches.now)) }
{
    value(matches, id).is_some_and(|text| text == "true")
}

/// These words, if there are any.
fn if_some<'m, 'a>(words: &'m [&'a str]) -> Option<Words<'m, 'a>>
    ensures { option_map argument_values result ≡ if_some (map (λ w. w.now) words.now) }
{
    match words {
        [] => None,
        _ => Some(Words::Several(words)),
    }
}

/// The words of an argument, if its name has the number of words that the argument requires.
fn words_at<'m, 'a>(argument: Argument, matches: &'m ArgMatches<'a>) -> Option<Words<'m, 'a>>
    ensures { option_map argument_values result
        ≡ words_by (count_in argument.count) argument.name.now (rows_of (found_of matches.now)) }
{
    match argument.count {
        Count::Once => Some(Words::One(value(matches, argument.name)?)),
        Count::Several => if_some(values(matches, argument.name)?),
        Count::Perhaps(_) => Some(Words::Perhaps(value(matches, argument.name))),
        Count::Often(_) => Some(Words::Often(values(matches, argument.name))),
        Count::Flag(_) => Some(Words::Flag(is_set(matches, argument.name))),
    }
}

/// The value of each of these words.
fn each_spelled<T: Word + Drop>(
    alloc: Global,
    argument: Argument,
    words: &[&str],
) -> Result<Vec<T>, LineFault>
    ensures ok { IfOk result (λ xs. all_spelled T.form_of (map (λ w. w.now) words.now)
        ≡ Some xs.items) }
    ensures err { IfErr result (λ e. (e ≡ LineFault.OutOfMemory)
        ⊎ (all_spelled T.form_of (map (λ w. w.now) words.now) ≡ None)) }
    ensures refusal { IfErr result IsRefusalUnlessMemory }
    ensures told { IfErr result (IsRefusedBy (option_map (other_form (argument_in argument))
        (first_other T.form_of (map (λ w. w.now) words.now)))) }
{
    let mut values = Vec::new(alloc);
    'words: for word in words {
        values.push(spelled(alloc, argument, word)?)?;
    }
    Ok(values)
}

/// The value of a word of this argument.
fn spelled<T: Word>(alloc: Global, argument: Argument, word: &str) -> Result<T, LineFault>
    ensures ok { IfOk result (λ x. T.form_of word.now ≡ Some x) }
    ensures err { IfErr result (λ e. (e ≡ LineFault.OutOfMemory) ⊎ (T.form_of word.now ≡ None)) }
    ensures refusal { IfErr result IsRefusalUnlessMemory }
    ensures text { IfErr result (IsRefusedAs (other_form (argument_in argument) word.now)) }
{
    match T::read(word) {
        Some(value) => Ok(value),
        None => Err(other_form(alloc, argument, word)),
    }
}

/// The refusal of a line in which a word lacks the form of its argument.
fn other_form(alloc: Global, argument: Argument, word: &str) -> LineFault
    ensures { IsRefusedAs (other_form (argument_in argument) word.now) result }
{
    let name = argument.name;
    let form = form_text(form_of(argument.role));
    match shown(alloc, word) {
        Ok(word) => refused(format!(in alloc; "error: invalid {name} '{word}': expected {form}\n")),
        Err(_) => LineFault::OutOfMemory,
    }
}

/// The refusal of a line in which a value is missing.
fn missing_value(alloc: Global, argument: Argument) -> LineFault
    ensures { IsRefusedAs (without_value (argument_in argument)) result }
{
    let name = argument.name;
    refused(format!(in alloc; "error: missing {name}\n"))
}

/// A copy of each text.
pub fn copies(alloc: Global, texts: &[&str]) -> Result<Vec<String>, AllocError>
    ensures { IfOk result (λ v. map string_bytes v.items ≡ map (λ t. t.now) texts.now) }
{
    let mut copies = Vec::new(alloc);
    'texts: for text in texts {
        copies.push(String::from_str(alloc, text)?)?;
    }
    Ok(copies)
}

/// A copy of words that are their own values.
fn copied(alloc: Global, words: Words) -> Result<Amount<String>, AllocError>
    ensures { IfOk result (λ copied. texts_view copied ≡ argument_values words.entry) }
{
    Ok(match words {
        Words::One(word) => Amount::One(String::from_str(alloc, word)?),
        Words::Several(words) => Amount::Several(copies(alloc, words)?),
        Words::Perhaps(None) => Amount::Perhaps(None),
        Words::Perhaps(Some(word)) => Amount::Perhaps(Some(String::from_str(alloc, word)?)),
        Words::Often(None) => Amount::Several(Vec::new(alloc)),
        Words::Often(Some(words)) => Amount::Several(copies(alloc, words)?),
        Words::Flag(is_set) => Amount::Flag(is_set),
    })
}

/// The value of each word of an argument.
fn amount<T: Word + Drop>(
    alloc: Global,
    argument: Argument,
    words: Words,
) -> Result<Amount<T>, LineFault>
    ensures ok { IfOk result (λ xs. amount_spelled T.form_of (argument_values words.entry) ≡ Some (amount_view xs)) }
    ensures err { IfErr result (λ e. (e ≡ LineFault.OutOfMemory)
        ⊎ (amount_spelled T.form_of (argument_values words.entry) ≡ None)) }
    ensures refusal { IfErr result IsRefusalUnlessMemory }
    ensures told { IfErr result (IsRefusedBy (option_map (other_form (argument_in argument))
        (other_in T.form_of (argument_values words.entry)))) }
{
    Ok(match words {
        Words::One(word) => Amount::One(spelled(alloc, argument, word)?),
        Words::Several(words) => Amount::Several(each_spelled(alloc, argument, words)?),
        Words::Perhaps(None) => Amount::Perhaps(None),
        Words::Perhaps(Some(word)) => Amount::Perhaps(Some(spelled(alloc, argument, word)?)),
        Words::Often(None) => Amount::Several(Vec::new(alloc)),
        Words::Often(Some(words)) => Amount::Several(each_spelled(alloc, argument, words)?),
        Words::Flag(is_set) => Amount::Flag(is_set),
    })
}

/// The values of the words of an argument, by its form.
fn values_spelled(alloc: Global, argument: Argument, words: Words) -> Result<Values, LineFault>
    ensures ok { IfOk result (λ vs. values_spelled (form_of argument.role) (argument_values words.entry)
        ≡ Some (values_view vs)) }
    ensures err { IfErr result (λ e. (e ≡ LineFault.OutOfMemory)
        ⊎ (values_spelled (form_of argument.role) (argument_values words.entry) ≡ None)) }
    ensures refusal { IfErr result IsRefusalUnlessMemory }
    ensures told { IfErr result (IsRefusedBy (form_refusal (argument_in argument) (argument_values words.entry))) }
{
    Ok(match form_of(argument.role) {
        Form::Plain => Values::Texts(copied(alloc, words)?),
        Form::Uuid => Values::Uuids(amount(alloc, argument, words)?),
        Form::Arch => Values::Archs(amount(alloc, argument, words)?),
        Form::Digest => Values::Digests(amount(alloc, argument, words)?),
        Form::Number => Values::Numbers(amount(alloc, argument, words)?),
    })
}

/// The values of an argument. Each line that `clap` accepts has them if the argument is required.
#[tactic(auto, unfolding(crate::specs::LineFaults::refusal_at))]
fn values_at(alloc: Global, argument: Argument, matches: &ArgMatches) -> Result<Values, LineFault>
    ensures ok { IfOk result (λ vs. values_at (argument_in argument) (rows_of (found_of matches.now))
        ≡ Some (values_view vs)) }
    ensures err { IfErr result (λ e. (e ≡ LineFault.OutOfMemory)
        ⊎ (values_at (argument_in argument) (rows_of (found_of matches.now)) ≡ None)) }
    ensures refusal { IfErr result IsRefusalUnlessMemory }
    ensures told { IfErr result (IsRefusedBy (refusal_at (argument_in argument) (rows_of (found_of matches.now)))) }
{
    match words_at(argument, matches) {
        Some(words) => values_spelled(alloc, argument, words),
        None => Err(missing_value(alloc, argument)),
    }
}

/// The values of each of these arguments.
#[tactic(auto, using(crate::proofs::LineFaultLemmas::among_next, crate::proofs::LineFaultLemmas::among_told))]
pub fn all_values(
    alloc: Global,
    arguments: &[Argument],
    matches: &ArgMatches,
) -> Result<Vec<Values>, LineFault>
    ensures ok { IfOk result (λ all. all_values (map argument_in arguments.now) (rows_of (found_of matches.now))
        ≡ Some (map values_view all.items)) }
    ensures err { IfErr result (λ e. (e ≡ LineFault.OutOfMemory)
        ⊎ (all_values (map argument_in arguments.now) (rows_of (found_of matches.now)) ≡ None)) }
    ensures refusal { IfErr result IsRefusalUnlessMemory }
    ensures told { IfErr result (IsRefusedBy
        (refusal_among (map argument_in arguments.now) (rows_of (found_of matches.now)))) }
{
    let mut all = Vec::new(alloc);
    'arguments: for argument in arguments {
        all.push(values_at(alloc, *argument, matches)?)?;
    }
    Ok(all)
}
