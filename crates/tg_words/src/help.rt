//! What help says of the program and of each command.
//!
//! The texts come from one table, a constant for each command. The grammar's rows compare it with the words that are taken.

ghost use Rattle.std.specs.Prelude.{◌≡◌, ◌++◌, IfOk, OnOk, decimal, map};
ghost use Rattle.std.specs.List.{flat_map};
ghost use Rattle.tg_words.specs.Help.{about_line, command_help, form_line, help_of, help_text, line_of, option_line};
ghost use Rattle.tg_words.specs.Help.{option_of, program_help, range_text, summary_line, texts_of, value_of, value_text};

use crate::names::CommandName;
use itoa::Buffer;
use std::alloc::{AllocError, Global};
use tg_bytes::Bytes;

/// The program's version, and the kit's line, by which it is proved.
pub const VERSION: &str = "tgate 0.3.0\nproved by rattle-kit-13f logic dac8208d650f15bf\n";

/// What stands before the commands in the help of the program.
const FRONT: &str =
    "tgate: publishes folders as blocks under CIDs, and fetches them from servers that nobody has to trust\n\n";

/// What stands behind them.
const BACK: &str =
    "\n`tgate help COMMAND` or `tgate COMMAND --help` says more of a command; `man -l docs/tgate.1` says all.\n";

/// What an option takes behind its name, `T` being the type of a text.
#[derive(Clone, Copy)]
pub enum OptionValue<T> {
    /// Nothing.
    Nothing,
    /// A word of this form.
    Word(T),
    /// A number from `low` to `high`. Where the option is absent `default` stands; where that is none it has to stand.
    Number {
        low: u64,
        high: u64,
        default: Option<u64>,
    },
}

/// What help says of an option: its name, what it takes, and what that does.
#[derive(Clone, Copy)]
pub struct OptionHelp<T> {
    pub name: T,
    pub value: OptionValue<T>,
    pub about: T,
}

/// What help says of a command: its name, what it does, the forms of its words, its options, and an example, the last two
/// without the program's name.
///
/// `T` is the type of a text, `F` that of the forms and `O` that of the options.
#[derive(Clone, Copy)]
pub struct CommandHelp<T, F, O> {
    pub name: T,
    pub about: T,
    pub forms: F,
    pub options: O,
    pub example: T,
}

/// A row of the table: what help says of an option.
pub type OptionRow = OptionHelp<&'static str>;

/// A row of the table: what help says of a command.
pub type CommandRow = CommandHelp<&'static str, &'static [&'static str], &'static [OptionRow]>;

const CHECK: CommandRow = CommandHelp {
    name: "check",
    about: "writes a block that stands on input, if the CID names it",
    forms: &["check CID < BLOCK"],
    options: &[],
    example: "check bafkreifzjut3te2nhyekklss27nh3k72ysco7y32koao5eei66wof36n5e < block",
};

const NODE: CommandRow = CommandHelp {
    name: "node",
    about: "writes the fields of a block that stands on input, if the CID names it",
    forms: &["node CID < BLOCK"],
    options: &[],
    example: "node bafybeihtdtunwt2sx7qvwdcknhnwretbb4zmjieise77ebt4pqxbabimfy < block",
};

const CID: CommandRow = CommandHelp {
    name: "cid",
    about: "writes a CID's bytes in hexadecimal, or the text of these bytes",
    forms: &["cid CID", "cid --hex HEX"],
    options: &[OptionHelp {
        name: "hex",
        value: OptionValue::Word("HEX"),
        about: "the bytes of a CID, in hexadecimal digits of either case",
    }],
    example: "cid bafkreifzjut3te2nhyekklss27nh3k72ysco7y32koao5eei66wof36n5e",
};

const SCOPE: OptionRow = OptionHelp {
    name: "scope",
    value: OptionValue::Word("block|entity|all"),
    about: "the block at the path, what it is by itself, or all below it; entity where absent",
};

const BYTES: OptionRow = OptionHelp {
    name: "bytes",
    value: OptionValue::Word("FROM:TO"),
    about: "these bytes of a file, both ends with them; FROM may count back from the end, TO may be *",
};

const DUPS: OptionRow = OptionHelp {
    name: "dups",
    value: OptionValue::Word("y|n"),
    about: "whether a block that stands at several places is sent at each; y where absent",
};

const EXPORT: CommandRow = CommandHelp {
    name: "export",
    about: "writes what is asked of a pack as a CAR",
    forms: &["export PACK ROOT/PATH [--scope S] [--bytes R] [--dups D]"],
    options: &[SCOPE, BYTES, DUPS],
    example: "export site.car bafybeihtdtunwt2sx7qvwdcknhnwretbb4zmjieise77ebt4pqxbabimfy/h > h.car",
};

const IMPORT: CommandRow = CommandHelp {
    name: "import",
    about: "makes PACK anew from a folder, and writes its root and what it holds",
    forms: &["import FOLDER PACK [--chunk N] [--width N] [--shard N]"],
    options: &[
        OptionHelp {
            name: "chunk",
            value: OptionValue::Number {
                low: 1,
                high: 2_097_152,
                default: Some(1_048_576),
            },
            about: "how many bytes of a file a block has at most",
        },
        OptionHelp {
            name: "width",
            value: OptionValue::Number {
                low: 2,
                high: 4_096,
                default: Some(1_024),
            },
            about: "how many links a node of a file has at most",
        },
        OptionHelp {
            name: "shard",
            value: OptionValue::Number {
                low: 0,
                high: 1_048_576,
                default: Some(262_144),
            },
            about: "the weight of its entries above which a directory is sharded",
        },
    ],
    example: "import folder site.car",
};

const INTO: OptionRow = OptionHelp {
    name: "into",
    value: OptionValue::Word("FOLDER"),
    about: "makes FOLDER, which must not be there, of all at the path, as it comes: a folder, or a file; no option but --dups beside it",
};

const VERIFY: CommandRow = CommandHelp {
    name: "verify",
    about: "checks a CAR on input while it comes, and writes what it says",
    forms: &[
        "verify ROOT/PATH [--scope S] [--bytes R] [--dups D] < CAR",
        "verify ROOT/PATH --into FOLDER [--dups D] < CAR",
    ],
    options: &[SCOPE, BYTES, DUPS, INTO],
    example: "verify bafybeihtdtunwt2sx7qvwdcknhnwretbb4zmjieise77ebt4pqxbabimfy/h < h.car",
};

const SERVE: CommandRow = CommandHelp {
    name: "serve",
    about: "answers connections on 127.0.0.1 from a pack",
    forms: &["serve PACK --port N --count N [--lanes N]"],
    options: &[
        OptionHelp {
            name: "port",
            value: OptionValue::Number {
                low: 0,
                high: 65_535,
                default: None,
            },
            about: "the port; 0 takes a free one, which the line tells",
        },
        OptionHelp {
            name: "count",
            value: OptionValue::Number {
                low: 1,
                high: 1_000_000,
                default: None,
            },
            about: "how many connections are answered",
        },
        OptionHelp {
            name: "lanes",
            value: OptionValue::Number {
                low: 1,
                high: 64,
                default: Some(1),
            },
            about: "how many connections are served side by side",
        },
    ],
    example: "serve site.car --port 8080 --count 1000",
};

const FETCH: CommandRow = CommandHelp {
    name: "fetch",
    about: "asks a gateway, checks the reply while it comes, and writes what it says",
    forms: &[
        "fetch HOST:PORT ROOT/PATH [--scope S] [--bytes R] [--dups D]",
        "fetch HOST:PORT ROOT/PATH --into FOLDER [--dups D]",
        "fetch HOST:PORT ROOT --raw",
    ],
    options: &[
        SCOPE,
        BYTES,
        DUPS,
        INTO,
        OptionHelp {
            name: "raw",
            value: OptionValue::Nothing,
            about: "the root's block as it is, with no path and no other option",
        },
    ],
    example: "fetch localhost:8080 bafybeihtdtunwt2sx7qvwdcknhnwretbb4zmjieise77ebt4pqxbabimfy/h",
};

const MIRROR: CommandRow = CommandHelp {
    name: "mirror",
    about: "copies all below a root from a gateway into PACK, checked while it comes",
    forms: &["mirror HOST:PORT ROOT PACK"],
    options: &[],
    example: "mirror localhost:8080 bafybeihtdtunwt2sx7qvwdcknhnwretbb4zmjieise77ebt4pqxbabimfy copy.car",
};

const SWARM: CommandRow = CommandHelp {
    name: "swarm",
    about: "fetches a file by parts from several gateways at once, and writes it, checked while it comes",
    forms: &["swarm ROOT HOST:PORT.. [--part N]"],
    options: &[OptionHelp {
        name: "part",
        value: OptionValue::Number {
            low: 1,
            high: 16_777_216,
            default: Some(4_194_304),
        },
        about: "how many bytes are asked of a gateway at once",
    }],
    example: "swarm bafkreifzjut3te2nhyekklss27nh3k72ysco7y32koao5eei66wof36n5e localhost:8080 localhost:8081",
};

const AUDIT: CommandRow = CommandHelp {
    name: "audit",
    about: "imports, serves and fetches a drawn folder in memory, and compares the answers",
    forms: &["audit --seed N --files N"],
    options: &[
        OptionHelp {
            name: "seed",
            value: OptionValue::Number {
                low: 0,
                high: u64::MAX,
                default: None,
            },
            about: "what the folder is drawn from",
        },
        OptionHelp {
            name: "files",
            value: OptionValue::Number {
                low: 1,
                high: 20_000,
                default: None,
            },
            about: "how many small files it has",
        },
    ],
    example: "audit --seed 7 --files 2000",
};

const HELP: CommandRow = CommandHelp {
    name: "help",
    about: "says what the program or a command does",
    forms: &["help [COMMAND]", "[COMMAND] --help", "[COMMAND] -h"],
    options: &[],
    example: "help import",
};

const THIS_VERSION: CommandRow = CommandHelp {
    name: "version",
    about: "writes the program's version, and by which kit it is proved",
    forms: &["version", "--version"],
    options: &[],
    example: "version",
};

/// What help says of a command.
pub fn help_for(name: CommandName) -> CommandRow
    ensures { texts_of result ≡ help_of name }
{
    match name {
        CommandName::Check => CHECK,
        CommandName::Node => NODE,
        CommandName::Cid => CID,
        CommandName::Export => EXPORT,
        CommandName::Import => IMPORT,
        CommandName::Verify => VERIFY,
        CommandName::Serve => SERVE,
        CommandName::Fetch => FETCH,
        CommandName::Mirror => MIRROR,
        CommandName::Swarm => SWARM,
        CommandName::Audit => AUDIT,
        CommandName::Help => HELP,
        CommandName::Version => THIS_VERSION,
    }
}

/// The text of help: of a command, or else of the program. The error is want of memory.
pub fn help_text(alloc: Global, topic: Option<CommandName>) -> Result<Bytes, AllocError>
    ensures { IfOk result (λ text. text ≡ help_text topic) }
{
    let mut text = Bytes::new(alloc);
    match topic {
        Some(name) => push_command(&mut text, help_for(name))?,
        None => push_program(&mut text)?,
    }
    Ok(text)
}

/// Adds the help of the program. The error is want of memory.
fn push_program(text: &mut Bytes) -> Result<(), AllocError>
    ensures { OnOk result (text.new ≡ text.old ++ program_help) }
{
    text.push_all(FRONT.as_bytes())?;
    push_summaries(text, CommandName::ALL)?;
    text.push_all(BACK.as_bytes())?;
    Ok(())
}

/// Adds a line for each command. The error is want of memory.
fn push_summaries(text: &mut Bytes, names: &[CommandName]) -> Result<(), AllocError>
    ensures { OnOk result (text.new ≡ text.old ++ flat_map summary_line names.now) }
{
    for name in names {
        push_about(text, b"  ", help_for(*name))?;
    }
    Ok(())
}

/// Adds the help of a command. The error is want of memory.
fn push_command(text: &mut Bytes, help: CommandRow) -> Result<(), AllocError>
    ensures { OnOk result (text.new ≡ text.old ++ command_help (texts_of help.entry)) }
{
    push_about(text, b"tgate ", help)?;
    text.push_all(b"\n")?;
    push_forms(text, help.forms)?;
    push_options(text, help.options)?;
    push_line(text, b"\nexample: tgate ", help.example)
}

/// Adds the line of what a command does, behind a label. The error is want of memory.
fn push_about(text: &mut Bytes, label: &[u8], help: CommandRow) -> Result<(), AllocError>
    ensures { OnOk result (text.new ≡ text.old ++ about_line label.now (texts_of help.entry)) }
{
    text.push_all(label)?;
    text.push_all(help.name.as_bytes())?;
    text.push_all(b": ")?;
    text.push_all(help.about.as_bytes())?;
    text.push_all(b"\n")
}

/// Adds the forms of a command's words. The error is want of memory.
fn push_forms(text: &mut Bytes, forms: &[&str]) -> Result<(), AllocError>
    ensures { OnOk result (text.new ≡ text.old ++ flat_map form_line (map (λ form. form.now) forms.now)) }
{
    for form in forms {
        push_line(text, b"  tgate ", form)?;
    }
    Ok(())
}

/// Adds a text on a line of its own behind a label. The error is want of memory.
fn push_line(text: &mut Bytes, label: &[u8], line: &str) -> Result<(), AllocError>
    ensures { OnOk result (text.new ≡ text.old ++ line_of label.now line.now) }
{
    text.push_all(label)?;
    text.push_all(line.as_bytes())?;
    text.push_all(b"\n")
}

/// Adds the lines of options. The error is want of memory.
fn push_options(text: &mut Bytes, options: &[OptionRow]) -> Result<(), AllocError>
    ensures { OnOk result (text.new ≡ text.old ++ flat_map option_line (map option_of options.now)) }
{
    for option in options {
        push_option(text, *option)?;
    }
    Ok(())
}

/// Adds an option's line. The error is want of memory.
fn push_option(text: &mut Bytes, option: OptionRow) -> Result<(), AllocError>
    ensures { OnOk result (text.new ≡ text.old ++ option_line (option_of option.entry)) }
{
    text.push_all(b"  --")?;
    text.push_all(option.name.as_bytes())?;
    push_value(text, option.value)?;
    text.push_all(b"  ")?;
    text.push_all(option.about.as_bytes())?;
    push_range(text, option.value)?;
    text.push_all(b"\n")
}

/// Adds what stands behind an option's name. The error is want of memory.
fn push_value(text: &mut Bytes, value: OptionValue<&str>) -> Result<(), AllocError>
    ensures { OnOk result (text.new ≡ text.old ++ value_text (value_of value.entry)) }
{
    match value {
        OptionValue::Nothing => Ok(()),
        OptionValue::Word(form) => {
            text.push_all(b" ")?;
            text.push_all(form.as_bytes())
        }
        OptionValue::Number { .. } => text.push_all(b" N"),
    }
}

/// Adds the numbers that an option takes, and the one that stands without it. The error is want of memory.
fn push_range(text: &mut Bytes, value: OptionValue<&str>) -> Result<(), AllocError>
    ensures { OnOk result (text.new ≡ text.old ++ range_text (value_of value.entry)) }
{
    let OptionValue::Number { low, high, default } = value else {
        return Ok(());
    };
    push_number(text, b": ", low)?;
    push_number(text, b" to ", high)?;
    match default {
        Some(number) => {
            push_number(text, b", ", number)?;
            text.push_all(b" where absent")
        }
        None => Ok(()),
    }
}

/// Adds a label and a number. The error is want of memory.
fn push_number(text: &mut Bytes, label: &[u8], number: u64) -> Result<(), AllocError>
    ensures { OnOk result (text.new ≡ text.old ++ (label.now ++ decimal number)) }
{
    text.push_all(label)?;
    text.push_all(Buffer::new().format(number).as_bytes())
}
