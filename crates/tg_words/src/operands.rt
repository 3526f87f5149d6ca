//! Words as positional words and options, for a command whose options have these names.

ghost use Rattle.std.specs.Prelude.{◌≡◌, ◌≢◌, ℕ, ◌^◌, ◌≤◌, List, [], ◌∷◌, map, string_bytes, option_map, IfOk, IfErr};
ghost use Rattle.std.specs.Prelude.{IfSome, IfNone, IsTrue, MatchResult, find};
ghost use Rattle.std.specs.Str.{bytes_eq};
ghost use Rattle.clap.specs.Words.{app_of, found_of, rows_of};
ghost use Rattle.tg_words.specs.CommandLine.{no_names};
ghost use Rattle.tg_words.specs.ImportLines.{NumberText};
ghost use Rattle.tg_words.specs.Operands.{Exact, NumberGiven, NumberNeeded, given, givens, names_of, texts_of, value_at};
ghost use Rattle.tg_words.specs.Parsing.{app_for, option_at, option_rule, options_in, positional_in, with_rules};
ghost use Rattle.tg_words.specs.Words.{Given, WordsSpelling, are_names};
ghost use Rattle.tg_words.specs.declared.WordsFault.{WordsFault};

use crate::WordsFault;
use clap::parser::ValueSource;
use clap::{Arg, ArgAction, ArgMatches, Command};
use std::alloc::{AllocError, Global};

/// The id of the positional words, which is no name of an option.
const POSITIONAL: &str = "";

/// The names of a command's options: of those with a value, and of those without one.
#[derive(Clone, Copy)]
pub struct OptionNames<'a> {
    pub valued: &'a [&'a str],
    pub flags: &'a [&'a str],
}

/// An option that stands in words, and its value if it has one.
#[derive(Clone, Copy)]
pub struct GivenOption<'a> {
    pub name: &'a str,
    pub value: Option<&'a str>,
}

/// The least and the greatest number that an option may have, and the one where the option is absent.
#[derive(Clone, Copy)]
pub struct Setting {
    pub low: u32,
    pub high: u32,
    pub default: u32,
}

/// The positional words and the options of words, each in order.
#[derive(Drop)]
pub struct Operands<'a> {
    pub positional: Vec<&'a str>,
    pub options: Vec<GivenOption<'a>>,
}

/// The positional words and the options that words spell, where the command has options of these names.
///
/// An option stands anywhere, at most once, as `--name=VALUE`, as `--name VALUE` or, where it has no value, as
/// `--name`; `--` ends the options. Errors: `Usage` where the words aren't of this form, `OutOfMemory` for want of
/// memory alone.
pub fn operands_of<'a>(
    alloc: Global,
    words: &'a [String],
    names: OptionNames<'a>,
) -> Result<Operands<'a>, WordsFault>
    requires { IsTrue (are_names (names_of names)) }
    ensures found { IfOk result (λ found. WordsSpelling (names_of names.entry) (map string_bytes words.now)
        (texts_of found.positional.items) (givens found.options.items)) }
    ensures only { (positional : List (List ℕ)) (options : List Given)
        → WordsSpelling (names_of names.entry) (map string_bytes words.now) positional options
        → MatchResult result (λ found. (texts_of found.positional.items ≡ positional)
        × (givens found.options.items ≡ options))
        (λ e. e ≡ WordsFault.OutOfMemory) }
{
    let command = command_of(alloc, names)?;
    let matches = command.try_get_matches_from(words)?;
    Ok(operands_in(alloc, &matches, names)?)
}

/// The options that words spell, where they have no positional word and the command has options of these names.
///
/// Errors: as in `one_operand`.
pub fn no_operand<'a>(
    alloc: Global,
    words: &'a [String],
    names: OptionNames<'a>,
) -> Result<Vec<GivenOption<'a>>, WordsFault>
    requires { IsTrue (are_names (names_of names)) }
    ensures found { IfOk result (λ options. WordsSpelling (names_of names.entry) (map string_bytes words.now)
        [] (givens options.items)) }
    ensures only { (options : List Given)
        → WordsSpelling (names_of names.entry) (map string_bytes words.now) [] options
        → MatchResult result (λ found. givens found.items ≡ options) (λ e. e ≡ WordsFault.OutOfMemory) }
{
    let found = operands_of(alloc, words, names)?;
    if !found.positional.is_empty() {
        return Err(WordsFault::Usage);
    }
    Ok(found.options)
}

/// The one positional word and the options that words spell, where the command has options of these names.
///
/// Errors: `Usage` where the words aren't of this form or have another number of positional words, `OutOfMemory` for
/// want of memory alone.
pub fn one_operand<'a>(
    alloc: Global,
    words: &'a [String],
    names: OptionNames<'a>,
) -> Result<(&'a str, Vec<GivenOption<'a>>), WordsFault>
    requires { IsTrue (are_names (names_of names)) }
    ensures found { IfOk result (λ found. WordsSpelling (names_of names.entry) (map string_bytes words.now)
        (found.0.now ∷ []) (givens found.1.items)) }
    ensures only { (word : List ℕ) (options : List Given)
        → WordsSpelling (names_of names.entry) (map string_bytes words.now) (word ∷ []) options
        → MatchResult result (λ found. (found.0.now ≡ word) × (givens found.1.items ≡ options))
        (λ e. e ≡ WordsFault.OutOfMemory) }
{
    let found = operands_of(alloc, words, names)?;
    let word = one_word(found.positional.as_slice()).ok_or(WordsFault::Usage)?;
    Ok((word, found.options))
}

/// The two positional words and the options that words spell, where the command has options of these names.
///
/// Errors: as in `one_operand`.
pub fn two_operands<'a>(
    alloc: Global,
    words: &'a [String],
    names: OptionNames<'a>,
) -> Result<(&'a str, &'a str, Vec<GivenOption<'a>>), WordsFault>
    requires { IsTrue (are_names (names_of names)) }
    ensures found { IfOk result (λ found. WordsSpelling (names_of names.entry) (map string_bytes words.now)
        (found.0.now ∷ found.1.now ∷ []) (givens found.2.items)) }
    ensures only { (first second : List ℕ) (options : List Given)
        → WordsSpelling (names_of names.entry) (map string_bytes words.now) (first ∷ second ∷ []) options
        → MatchResult result (λ found. (found.0.now ≡ first) × (found.1.now ≡ second)
        × (givens found.2.items ≡ options)) (λ e. e ≡ WordsFault.OutOfMemory) }
{
    let found = operands_of(alloc, words, names)?;
    let (first, second) = two_words(found.positional.as_slice()).ok_or(WordsFault::Usage)?;
    Ok((first, second, found.options))
}

/// The three positional words that words spell, where the command has options of these names, which are left out.
///
/// Errors: as in `one_operand`.
pub fn three_operands<'a>(
    alloc: Global,
    words: &'a [String],
    names: OptionNames<'a>,
) -> Result<(&'a str, &'a str, &'a str), WordsFault>
    requires { IsTrue (are_names (names_of names)) }
    ensures found { IfOk result (λ found. (options : List Given)
        × WordsSpelling (names_of names.entry) (map string_bytes words.now)
        (found.0.now ∷ found.1.now ∷ found.2.now ∷ []) options) }
    ensures only { (first second third : List ℕ) (options : List Given)
        → WordsSpelling (names_of names.entry) (map string_bytes words.now) (first ∷ second ∷ third ∷ []) options
        → MatchResult result (λ found. (found.0.now ≡ first) × (found.1.now ≡ second) × (found.2.now ≡ third))
        (λ e. e ≡ WordsFault.OutOfMemory) }
{
    let found = operands_of(alloc, words, names)?;
    let (first, second, third) = three_words(found.positional.as_slice()).ok_or(WordsFault::Usage)?;
    Ok((first, second, third))
}

/// The command whose arguments are positional words of any number and the options of these names.
fn command_of<'a>(alloc: Global, names: OptionNames<'a>) -> Result<Command<'a>, AllocError>
    ensures { IfOk result (λ command. app_of command ≡ app_for (names_of names.entry)) }
{
    let command = without_options(alloc)?;
    let command = with_options(alloc, command, names.valued, ArgAction::Set)?;
    with_options(alloc, command, names.flags, ArgAction::SetTrue)
}

/// The command whose arguments are positional words of any number.
fn without_options<'a>(alloc: Global) -> Result<Command<'a>, AllocError>
    ensures { IfOk result (λ command. app_of command ≡ app_for no_names) }
{
    let positional = Arg::new(alloc, POSITIONAL).action(ArgAction::Append);
    Command::new(alloc, POSITIONAL)
        .no_binary_name(true)
        .disable_help_flag(true)
        .disable_version_flag(true)
        .arg(positional)
}

/// The command with an option of each of these names, of which a use does this.
fn with_options<'a>(
    alloc: Global,
    mut command: Command<'a>,
    names: &'a [&'a str],
    action: ArgAction,
) -> Result<Command<'a>, AllocError>
    ensures { IfOk result (λ all. app_of all ≡ with_rules (app_of command.entry)
        (map (option_rule action) (texts_of names.now))) }
{
    for name in names {
        command = with_option(alloc, command, name, action)?;
    }
    Ok(command)
}

/// The command with an option of this name, of which a use does this.
fn with_option<'a>(
    alloc: Global,
    command: Command<'a>,
    name: &'a str,
    action: ArgAction,
) -> Result<Command<'a>, AllocError>
    ensures { IfOk result (λ more. app_of more ≡ with_rules (app_of command.entry) (option_rule action name.now ∷ [])) }
{
    command.arg(Arg::new(alloc, name).long(name).action(action))
}

/// The operands that a parse found.
fn operands_in<'a>(
    alloc: Global,
    matches: &ArgMatches<'a>,
    names: OptionNames<'a>,
) -> Result<Operands<'a>, AllocError>
    ensures { IfOk result (λ found. (texts_of found.positional.items ≡ positional_in (rows_of (found_of matches.now)))
        × (givens found.options.items ≡ options_in (texts_of names.entry.flags.now) (rows_of (found_of matches.now)))) }
{
    let mut found = Operands {
        positional: Vec::new(alloc),
        options: Vec::new(alloc),
    };
    if let Some(words) = matches.get_strs(POSITIONAL) {
        found.positional.extend_from_slice(words)?;
    }
    for name in matches.ids() {
        if let Some(option) = option_in(matches, name, names) {
            found.options.push(option)?;
        }
    }
    Ok(found)
}

/// The option of this name that a parse found among the words.
fn option_in<'a>(
    matches: &ArgMatches<'a>,
    name: &'a str,
    names: OptionNames<'a>,
) -> Option<GivenOption<'a>>
    ensures { option_map given result ≡ option_at (texts_of names.entry.flags.now)
        (rows_of (found_of matches.now)) name.now }
{
    if name == POSITIONAL || matches.value_source(name) != Some(ValueSource::CommandLine) {
        return None;
    }
    let value = if names.flags.contains(&name) {
        None
    } else {
        matches.get_str(name)
    };
    Some(GivenOption { name, value })
}

/// The word that stands alone.
pub fn one_word<'a>(words: &[&'a str]) -> Option<&'a str>
    ensures some { IfSome result (λ word. texts_of words.now ≡ word.now ∷ []) }
    ensures none { IfNone result ((word : List ℕ) → texts_of words.now ≢ word ∷ []) }
{
    let (word, rest) = words.split_first()?;
    if rest.is_empty() { Some(*word) } else { None }
}

/// The two words that stand alone.
fn two_words<'a>(words: &[&'a str]) -> Option<(&'a str, &'a str)>
    ensures some { IfSome result (λ pair. texts_of words.now ≡ pair.0.now ∷ pair.1.now ∷ []) }
    ensures none { IfNone result ((first second : List ℕ) → texts_of words.now ≢ first ∷ second ∷ []) }
{
    let (first, rest) = words.split_first()?;
    Some((*first, one_word(rest)?))
}

/// The three words that stand alone.
fn three_words<'a>(words: &[&'a str]) -> Option<(&'a str, &'a str, &'a str)>
    ensures some { IfSome result (λ three. texts_of words.now ≡ three.0.now ∷ three.1.now ∷ three.2.now ∷ []) }
    ensures none { IfNone result ((first second third : List ℕ)
        → texts_of words.now ≢ first ∷ second ∷ third ∷ []) }
{
    let (first, rest) = words.split_first()?;
    let (second, third) = two_words(rest)?;
    Some((*first, second, third))
}

/// A word as a string of its own, where it isn't empty.
pub fn named(alloc: Global, word: &str) -> Result<String, WordsFault>
    ensures found { IfOk result (λ name. (string_bytes name ≡ word.now) × (word.now ≢ [])) }
    ensures only { word.now ≢ [] → IfErr result (λ e. e ≡ WordsFault.OutOfMemory) }
{
    if word.is_empty() {
        return Err(WordsFault::Usage);
    }
    Ok(String::from_str(alloc, word)?)
}

/// The value of the first option of this name, where one stands and has a value.
pub fn value_of<'a>(options: &[GivenOption<'a>], name: &str) -> Option<&'a str>
    ensures { option_map (λ value. value.now) result ≡ value_at (givens options.now) name.now }
{
    find_option(options, name)?.value
}

/// The first option of this name.
fn find_option<'a>(options: &[GivenOption<'a>], name: &str) -> Option<GivenOption<'a>>
    ensures { option_map given result ≡ find (λ option. bytes_eq option.0 name.now) (givens options.now) }
{
    for option in options {
        if option.name == name {
            return Some(*option);
        }
    }
    None
}

/// The number from `low` to `high` that an option's value writes.
pub fn number_needed(value: Option<&str>, low: u64, high: u64) -> Result<u64, WordsFault>
    ensures { Exact (NumberNeeded (option_map (λ text. text.now) value.entry) low high) result }
{
    let text = value.ok_or(WordsFault::Usage)?;
    let number = number_of(text).ok_or(WordsFault::Usage)?;
    if number < low || high < number {
        return Err(WordsFault::Usage);
    }
    Ok(number)
}

/// The number that an option's value writes, or the default where there is none.
pub fn number_given(value: Option<&str>, setting: Setting) -> Result<u32, WordsFault>
    ensures { Exact (NumberGiven
        (option_map (λ text. text.now) value.entry) setting.low setting.high setting.default) result }
{
    let number = match value {
        Some(text) => number_of(text).ok_or(WordsFault::Usage)?,
        None => u64::from(setting.default),
    };
    if number < u64::from(setting.low) || u64::from(setting.high) < number {
        return Err(WordsFault::Usage);
    }
    Ok(number as u32)
}

/// The number below 2^64 that 1 to 20 decimal digits write.
pub fn number_of(text: &str) -> Option<u64>
    ensures some { IfSome result (λ number. NumberText text.now number) }
    ensures none { IfNone result ((number : ℕ) → NumberText text.now number → 2 ^ 64 ≤ number) }
{
    if text.len() > 20 || text.as_bytes().first() == Some(&b'+') {
        return None;
    }
    text.parse::<u64>().ok()
}
