//! The names of the commands.

ghost use Rattle.std.specs.Prelude.{◌≡◌, ◌≢◌, IfSome, IfNone};
ghost use Rattle.tg_words.specs.Names.{name_text};
ghost use Rattle.tg_words.specs.declared.names.CommandName.{CommandName};

/// A command's name, by which its words begin and help is asked of it.
#[derive(Clone, Copy, PartialEq, Eq)]
pub enum CommandName {
    /// `check`.
    Check,
    /// `node`.
    Node,
    /// `cid`.
    Cid,
    /// `export`.
    Export,
    /// `import`.
    Import,
    /// `verify`.
    Verify,
    /// `serve`.
    Serve,
    /// `fetch`.
    Fetch,
    /// `mirror`.
    Mirror,
    /// `swarm`.
    Swarm,
    /// `audit`.
    Audit,
    /// `help`.
    Help,
    /// `version`.
    Version,
}

impl CommandName {
    /// All of them, in the order in which help tells them.
    pub const ALL: &'static [CommandName; 13] = &[
        CommandName::Import,
        CommandName::Serve,
        CommandName::Fetch,
        CommandName::Mirror,
        CommandName::Swarm,
        CommandName::Export,
        CommandName::Verify,
        CommandName::Check,
        CommandName::Node,
        CommandName::Cid,
        CommandName::Audit,
        CommandName::Help,
        CommandName::Version,
    ];

    /// The command of this name, if there is one.
    pub fn of(word: &str) -> Option<CommandName>
        ensures some { IfSome result (λ name. name_text name ≡ word.now) }
        ensures none { IfNone result ((name : CommandName) → name_text name ≢ word.now) }
    {
        if word == "check" {
            Some(CommandName::Check)
        } else if word == "node" {
            Some(CommandName::Node)
        } else if word == "cid" {
            Some(CommandName::Cid)
        } else if word == "export" {
            Some(CommandName::Export)
        } else if word == "import" {
            Some(CommandName::Import)
        } else if word == "verify" {
            Some(CommandName::Verify)
        } else if word == "serve" {
            Some(CommandName::Serve)
        } else if word == "fetch" {
            Some(CommandName::Fetch)
        } else if word == "mirror" {
            Some(CommandName::Mirror)
        } else if word == "swarm" {
            Some(CommandName::Swarm)
        } else if word == "audit" {
            Some(CommandName::Audit)
        } else if word == "help" {
            Some(CommandName::Help)
        } else if word == "version" {
            Some(CommandName::Version)
        } else {
            None
        }
    }
}
