//! The words of the command line: the grammar of the program's commands, and its reader.
//!
//! A command is a name of `CommandName`, a row of help, one line of `dispatch` and a constructor, which has the words behind
//! the command's name read by `no_operand`, `one_operand`, `two_operands`, `three_operands` or, where they are of another form,
//! `operands_of`.
#![tactic(auto)]

ghost use Rattle.std.specs.Prelude.{◌≡◌, ℕ, ◌⊎◌, List, ◌∷◌, map, string_bytes, codes, IfOk, IsErrOf};
ghost use Rattle.std.specs.Prelude.{MatchResult, ◌↔◌, IsTrue, IfSome, IfNone, [], Some};
ghost use Rattle.hex.specs.Hex.{decode_of};
ghost use Rattle.tg_cid.specs.Cid.{CidParts};
ghost use Rattle.tg_cid.specs.Spelling.{CidText, CidBytes};
ghost use Rattle.tg_words.specs.CommandLine.{AskNoText, BeginsCommand, CommandLine, HelpLine, IsHelpOption, IsTold};
ghost use Rattle.tg_words.specs.Names.{name_text};
ghost use Rattle.tg_words.specs.Operands.{Answers, OneCid};
ghost use Rattle.tg_words.specs.declared.Command.{Command};
ghost use Rattle.tg_words.specs.declared.WordsFault.{WordsFault};

mod audits;
mod exports;
mod fetches;
mod help;
mod imports;
mod intos;
mod mirrors;
mod names;
mod operands;
mod queries;
mod serves;
mod swarms;
mod verifies;

pub use audits::Audit;
use audits::audit_of;
use clap::error::ErrorKind;
pub use exports::Export;
use exports::export_of;
pub use fetches::Fetch;
use fetches::fetch_of;
pub use help::{
    CommandHelp, CommandRow, OptionHelp, OptionRow, OptionValue, VERSION, help_for, help_text,
};
use hex::FromHexError;
pub use imports::Import;
use imports::import_of;
pub use intos::{FetchInto, VerifyInto};
pub use mirrors::Mirror;
use mirrors::mirror_of;
pub use names::CommandName;
pub use operands::{GivenOption, Operands, OptionNames, operands_of};
use operands::{one_operand, one_word, value_of};
pub use serves::Serve;
use serves::serve_of;
use std::alloc::{AllocError, AllocFailed, Global};
pub use swarms::Swarm;
use swarms::swarm_of;
use tg_cid::{Cid, CidFault};
use tg_model::Query;
use tg_query::QueryFault;
use thiserror::Error;
use verifies::verify_of;

/// What the words ask for.
#[derive(Drop)]
pub enum Command {
    /// `check CID`: a block on input is written to out if the CID names it.
    Check(Cid),
    /// `node CID`: the fields of a block on input are written to out if the CID names it.
    Node(Cid),
    /// `cid CID`: the CID's bytes in lower-case hexadecimal.
    CidToHex(Cid),
    /// `cid --hex HEX`: the text of the CID with these bytes.
    CidToText(Cid),
    /// `export PACK ROOT/PATH [--scope S] [--bytes R] [--dups D]`: a CAR of what is asked below a root of a pack.
    ///
    /// PACK isn't empty. S is `block`, `entity` or `all`; R is a range FROM:TO of a file's bytes, beside which the
    /// scope is entity. Without either the scope is entity. D is `y`, or `n` where each block is sent once; without it
    /// a block is sent at each place where it stands.
    Export(Export),
    /// `import FOLDER PACK [--chunk N] [--width N] [--shard N]`: a folder is written into a pack.
    ///
    /// FOLDER and PACK aren't empty. Each N is 1 to 20 decimal digits. A chunk has 1 to 2,097,152 bytes, or else
    /// 1,048,576; a node of a file 2 to 4,096 links, or else 1,024; a directory is sharded above a weight of 0 to
    /// 1,048,576, or else 262,144.
    Import(Import),
    /// `verify ROOT/PATH [--scope S] [--bytes R] [--dups D]`: a CAR on input is checked, block by block, to be what is
    /// asked below a root, and what it says is written to out.
    ///
    /// S, R, D and the scope are as in `export`.
    Verify(Query),
    /// `verify ROOT/PATH --into FOLDER [--dups D]`: a CAR on input is checked, block by block, to be all below a root or a path, and a
    /// folder is made of it, or a file.
    ///
    /// FOLDER isn't empty. D is as in `export`; no other option stands.
    VerifyInto(VerifyInto),
    /// `serve PACK --port N --count N [--lanes N]`: the blocks of a pack are served on a port.
    ///
    /// PACK isn't empty. Port and count stand, and each N is 1 to 20 decimal digits. The port is 0 to 65,535, where 0
    /// asks for one that is free; 1 to 1,000,000 links are served. With lanes up to 64 connections are served side by
    /// side, or else one after another.
    Serve(Serve),
    /// `fetch ADDR ROOT/PATH [--scope S] [--bytes R] [--dups D]`: what is asked below a root is fetched from a gateway,
    /// checked block by block, and what it says is written to out. `fetch ADDR ROOT --raw`: the root's block, as it is.
    ///
    /// ADDR is HOST:PORT: 3 to 255 visible bytes of ASCII, and behind the last colon one to five digits that write a
    /// port of 1 to 65,535. S, R, D and the scope are as in `export`; with `--raw` no other option stands, and no path.
    Fetch(Fetch),
    /// `fetch ADDR ROOT/PATH --into FOLDER [--dups D]`: all below a root or a path is fetched from a gateway, checked block by block, and a
    /// folder is made of it, or a file.
    ///
    /// ADDR is as in `fetch`, FOLDER and D as in `verify`; no other option stands.
    FetchInto(FetchInto),
    /// `mirror ADDR ROOT PACK`: all below a root is fetched from a gateway, checked block by block, and written into a pack.
    ///
    /// ADDR is as in `fetch`. ROOT is the text of a CIDv1 with sha2-256, other than the root of a pack that isn't finished,
    /// which is raw with 32 zero bytes of digest. PACK isn't empty.
    Mirror(Mirror),
    /// `swarm ROOT ADDR.. [--part N]`: the file under a root is fetched by parts from several gateways, checked block by block,
    /// and written to out.
    ///
    /// ROOT is the text of a CID, and each of the 1 to 16 ADDR is as in `fetch`. A part has 1 to 16,777,216 bytes, or else
    /// 4,194,304; N is 1 to 20 decimal digits.
    Swarm(Swarm),
    /// `audit --seed N --files N`: the folder that a seed draws is imported in memory, and the answers to queries of it
    /// are compared with what was drawn.
    ///
    /// Both options stand, and each N is 1 to 20 decimal digits. The seed is 0 to 2^64 - 1; the folder's folder `many`
    /// has 1 to 20,000 files.
    Audit(Audit),
    /// `help`, `--help` or `-h`: what the program does. `help COMMAND`, or `--help` or `-h` behind a command's name: what
    /// that command does.
    Help(Option<CommandName>),
    /// `version` or `--version`: the program's version, and the kit by which it is proved.
    Version,
}

/// Why words were not read as a command.
#[derive(Clone, Copy, Debug, PartialEq, Eq, Error)]
pub enum WordsFault {
    /// No command of the grammar has these words.
    #[error("Usage")]
    Usage,
    /// No memory was found for what the words spell.
    #[error("OutOfMemory")]
    OutOfMemory,
}

impl From<AllocError> for WordsFault {
    ghost use Rattle.std.specs.Prelude.{◌≡◌};
    ghost use Rattle.tg_words.specs.declared.WordsFault.TheVariants.{OutOfMemory};

    ghost from_gives = { λ _ fault. fault ≡ OutOfMemory };

    fn from(_: AllocError) -> WordsFault {
        WordsFault::OutOfMemory
    }
}

impl<T: Drop> From<AllocFailed<T>> for WordsFault {
    ghost use Rattle.std.specs.Prelude.{◌≡◌};
    ghost use Rattle.tg_words.specs.declared.WordsFault.TheVariants.{OutOfMemory};

    ghost from_gives = { λ _ fault. fault ≡ OutOfMemory };

    fn from(_: AllocFailed<T>) -> WordsFault {
        WordsFault::OutOfMemory
    }
}

impl From<clap::Error> for WordsFault {
    ghost use Rattle.std.specs.Prelude.{◌≡◌};
    ghost use Rattle.clap.specs.Words.{kind_of};
    ghost use Rattle.tg_words.specs.Parsing.{fault_of_kind};

    ghost from_gives = { λ error given. given ≡ fault_of_kind (kind_of error) };

    fn from(error: clap::Error) -> WordsFault {
        match error.kind() {
            ErrorKind::OutOfMemory => WordsFault::OutOfMemory,
            _ => WordsFault::Usage,
        }
    }
}

impl From<CidFault> for WordsFault {
    ghost use Rattle.std.specs.Prelude.{◌≡◌};
    ghost use Rattle.tg_words.specs.Operands.{fault_of_cid};

    ghost from_gives = { λ fault given. given ≡ fault_of_cid fault };

    fn from(fault: CidFault) -> WordsFault {
        match fault {
            CidFault::OutOfMemory => WordsFault::OutOfMemory,
            CidFault::BadText
            | CidFault::BadVersion { .. }
            | CidFault::BadCodec { .. }
            | CidFault::BadHash { .. }
            | CidFault::BadLength { .. }
            | CidFault::Trailing { .. }
            | CidFault::Short { .. }
            | CidFault::BadVarint { .. } => WordsFault::Usage,
        }
    }
}

impl From<QueryFault> for WordsFault {
    ghost use Rattle.std.specs.Prelude.{◌≡◌};
    ghost use Rattle.tg_words.specs.Operands.{fault_of_query};

    ghost from_gives = { λ fault given. given ≡ fault_of_query fault };

    fn from(fault: QueryFault) -> WordsFault {
        match fault {
            QueryFault::OutOfMemory => WordsFault::OutOfMemory,
            QueryFault::BadPath
            | QueryFault::BadCid(_)
            | QueryFault::NoFormat
            | QueryFault::BadFormat
            | QueryFault::BadScope
            | QueryFault::BadRange
            | QueryFault::Doubled
            | QueryFault::BadParam
            | QueryFault::RawPath => WordsFault::Usage,
        }
    }
}

impl From<FromHexError> for WordsFault {
    ghost use Rattle.std.specs.Prelude.{◌≡◌};
    ghost use Rattle.tg_words.specs.Operands.{fault_of_hex};

    ghost from_gives = { λ fault given. given ≡ fault_of_hex fault };

    fn from(fault: FromHexError) -> WordsFault {
        match fault {
            FromHexError::OutOfMemory => WordsFault::OutOfMemory,
            FromHexError::InvalidHexCharacter { .. }
            | FromHexError::OddLength
            | FromHexError::InvalidStringLength => WordsFault::Usage,
        }
    }
}

/// The command that the words spell, the words being those after the program's name.
///
/// The first word is the command. Options are `--name VALUE` or `--name=VALUE`, anywhere behind it and each at most
/// once; `--` ends them (the Utility Syntax Guidelines of POSIX.1, section 12.2, guideline 10; long options are as in
/// GNU's `getopt_long`, but for shortened names). Errors: `Usage` where no command has these words, `OutOfMemory` for
/// want of memory alone.
pub fn read(alloc: Global, words: &[String]) -> Result<Command, WordsFault>
    ensures found { IfOk result (λ command. CommandLine (map string_bytes words.now) command) }
    ensures only { (command : Command) → CommandLine (map string_bytes words.now) command
        → MatchResult result (λ found. found ≡ command) (λ e. e ≡ WordsFault.OutOfMemory) }
    ensures cause { IsErrOf result WordsFault.Usage → (command : Command)
        → CommandLine (map string_bytes words.now) command → ⊥ }
    ensures given { ((command : Command) → CommandLine (map string_bytes words.now) command → ⊥)
        → (result ≡ Err WordsFault.Usage) ⊎ (result ≡ Err WordsFault.OutOfMemory) }
    // Memory is wanted only once a command was named: for the names of its options, and for what its words spell.
    ensures memory { IsErrOf result WordsFault.OutOfMemory → BeginsCommand (map string_bytes words.now) }
{
    if let Some(told) = told_by(words) {
        return Ok(told);
    }
    let Some((command, rest)) = words.split_first() else {
        return Err(WordsFault::Usage);
    };
    match CommandName::of(command.as_str()) {
        Some(name) => dispatch(alloc, name, rest),
        None => Err(WordsFault::Usage),
    }
}

/// The command that tells of the program, where the words ask for one: help, or the version.
fn told_by(words: &[String]) -> Option<Command>
    ensures some { IfSome result (λ command. IsTold (map string_bytes words.now) command) }
    ensures none { IfNone result (AskNoText (map string_bytes words.now)) }
{
    let (first, rest) = words.split_first()?;
    let first = first.as_str();
    let Some((second, more)) = rest.split_first() else {
        return told_alone(first);
    };
    if !more.is_empty() {
        return None;
    }
    let topic = topic_of(first, second.as_str())?;
    Some(Command::Help(Some(topic)))
}

/// What a word asks for that stands alone.
fn told_alone(word: &str) -> Option<Command>
    ensures some { IfSome result (λ command. IsTold (word.now ∷ []) command) }
    ensures none { IfNone result (AskNoText (word.now ∷ [])) }
{
    if word == "help" || is_help_option(word) {
        Some(Command::Help(None))
    } else if word == "version" || word == "--version" {
        Some(Command::Version)
    } else {
        None
    }
}

/// The command of which two words ask for help.
fn topic_of(first: &str, second: &str) -> Option<CommandName>
    ensures some { IfSome result (λ name. HelpLine (first.now ∷ second.now ∷ []) (Some name)) }
    ensures none { IfNone result (AskNoText (first.now ∷ second.now ∷ [])) }
{
    if is_help_option(second) {
        return CommandName::of(first);
    }
    if first == "help" {
        return CommandName::of(second);
    }
    None
}

/// Whether a word is an option that asks for help.
fn is_help_option(word: &str) -> bool
    ensures { IsTrue result ↔ IsHelpOption word.now }
{
    word == "--help" || word == "-h"
}

/// Words spell at most one command.
pub fn one_command()
    ensures { (words : List (List ℕ)) (a b : Command) → CommandLine words a → CommandLine words b → a ≡ b }
{
    tg_cid::laws::one_spelling();
    tg_query::path_laws::roots_read();
    tg_query::path_laws::spans_read();
}

/// The command of this name with these words behind it.
fn dispatch(alloc: Global, command: CommandName, words: &[String]) -> Result<Command, WordsFault>
    ensures { Answers (name_text command ∷ map string_bytes words.now) result }
{
    match command {
        CommandName::Check => check(alloc, words),
        CommandName::Node => node(alloc, words),
        CommandName::Cid => cid(alloc, words),
        CommandName::Export => export_of(alloc, words),
        CommandName::Import => import_of(alloc, words),
        CommandName::Verify => verify_of(alloc, words),
        CommandName::Serve => serve_of(alloc, words),
        CommandName::Fetch => fetch_of(alloc, words),
        CommandName::Mirror => mirror_of(alloc, words),
        CommandName::Swarm => swarm_of(alloc, words),
        CommandName::Audit => audit_of(alloc, words),
        CommandName::Help | CommandName::Version => Err(WordsFault::Usage),
    }
}

/// `check CID`.
fn check(alloc: Global, words: &[String]) -> Result<Command, WordsFault>
    ensures { Answers (codes "check" ∷ map string_bytes words.now) result }
{
    Ok(Command::Check(one_cid(alloc, words)?))
}

/// `node CID`.
fn node(alloc: Global, words: &[String]) -> Result<Command, WordsFault>
    ensures { Answers (codes "node" ∷ map string_bytes words.now) result }
{
    Ok(Command::Node(one_cid(alloc, words)?))
}

/// The CID where the words are one CID and no options.
fn one_cid(alloc: Global, words: &[String]) -> Result<Cid, WordsFault>
    ensures found { IfOk result (λ cid. OneCid (map string_bytes words.now) cid) }
    ensures only { (cid : CidParts) → OneCid (map string_bytes words.now) cid
        → MatchResult result (λ found. found ≡ cid) (λ e. e ≡ WordsFault.OutOfMemory) }
{
    let names = OptionNames {
        valued: &[],
        flags: &[],
    };
    let (text, _) = one_operand(alloc, words, names)?;
    cid_of_text(alloc, text)
}

/// `cid CID` and `cid --hex HEX`.
fn cid(alloc: Global, words: &[String]) -> Result<Command, WordsFault>
    ensures { Answers (codes "cid" ∷ map string_bytes words.now) result }
{
    let names = OptionNames {
        valued: &["hex"],
        flags: &[],
    };
    let found = operands_of(alloc, words, names)?;
    match value_of(found.options.as_slice(), "hex") {
        None => {
            let text = one_word(found.positional.as_slice()).ok_or(WordsFault::Usage)?;
            Ok(Command::CidToHex(cid_of_text(alloc, text)?))
        }
        Some(digits) if found.positional.is_empty() => {
            Ok(Command::CidToText(cid_of_hex(alloc, digits)?))
        }
        Some(_) => Err(WordsFault::Usage),
    }
}

/// The CID that a text spells.
pub(crate) fn cid_of_text(alloc: Global, text: &str) -> Result<Cid, WordsFault>
    ensures found { IfOk result (λ cid. CidText cid text.now) }
    ensures only { (cid : CidParts) → CidText cid text.now
        → MatchResult result (λ found. found ≡ cid) (λ e. e ≡ WordsFault.OutOfMemory) }
{
    Ok(Cid::from_text(alloc, text.as_bytes())?)
}

/// The CID with the bytes that hexadecimal digits spell.
fn cid_of_hex(alloc: Global, digits: &str) -> Result<Cid, WordsFault>
    ensures found { IfOk result (λ cid. (bytes : List ℕ) × (decode_of digits.now ≡ Ok bytes) × CidBytes cid bytes) }
    ensures only { (cid : CidParts) (bytes : List ℕ) → decode_of digits.now ≡ Ok bytes → CidBytes cid bytes
        → MatchResult result (λ found. found ≡ cid) (λ e. e ≡ WordsFault.OutOfMemory) }
{
    let bytes = hex::decode(alloc, digits.as_bytes())?;
    Ok(Cid::from_bytes(bytes.as_slice())?)
}
