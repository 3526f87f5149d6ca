//! Why a command ends before it is done, with the status and the line on err that say so.
ghost use Rattle.std.specs.Prelude.{◌≡◌, OnOk, OnErr};
ghost use Rattle.tg_streams.specs.Streams.{Put, PutFront, into};
ghost use Rattle.tg_commands.specs.Lines.{PutEnds, cause_of, end_of, fault_word, kind_word};

use itoa::Buffer;
use std::alloc::AllocError;
use tg_bytes::Bytes;
use tg_faults::Failed;
use tg_model::{BlockFault, LimitKind};
use tg_node::NodeFault;
use tg_streams::{Sink, put_all, put_pieces};
use tg_words::WordsFault;

/// Why a command ends before it is done.
#[derive(Drop)]
pub enum CommandFault {
    /// The words are no command.
    Usage,
    /// The CID with this text doesn't name the block on input.
    BadDigest { cid: Bytes },
    /// The block on input, which the CID with this text names, has no text that `node` writes.
    BadBlock { cid: Bytes, fault: NodeFault },
    /// The input has more bytes than a block may have.
    BlockLimit,
    /// A fault of the input was counted.
    InputFault,
    /// A fault of out was counted.
    SinkFault,
    /// No memory was found.
    OutOfMemory,
    /// A fault of the pack was counted.
    PackFault,
    /// A fault of the folder was counted.
    FolderFault,
    /// The pack holds no CAR: none goes on so inside the header or the section at this offset.
    NotCar { at: u64 },
    /// The CID of the pack's section at this offset doesn't name its block.
    BadPack { at: u64 },
    /// The pack isn't finished.
    Unfinished,
    /// The pack ends inside the header or the section at this offset.
    TornPack { at: u64 },
    /// The pack's section at this offset declares a block above the limit.
    PackLimit { at: u64 },
    /// Another block came than the one that is wanted; these are the texts of their CIDs.
    WrongBlock { want: Bytes, got: Bytes },
    /// The block that came under the CID with this text has no kind, or can't stand where it is wanted.
    BadReceived { cid: Bytes, fault: BlockFault },
    /// The size that is declared for a part by its parent, or by a file for itself, isn't its own.
    BadSize { declared: u64, actual: u64 },
    /// The input ends, and the block under the CID with this text is wanted; so many sections were taken.
    Truncated { want: Bytes, sections: u64 },
    /// Bytes came behind the last wanted section; so many sections were taken.
    Extra { sections: u64 },
    /// The input is no CAR.
    BadCar,
    /// What a limit of this kind counts would be greater than its number.
    Limit { kind: LimitKind, number: u64 },
    /// The root isn't stored.
    NoRoot,
    /// The directory has no entry with the segment's name. Segments count from 0.
    NotThere { segment: u32 },
    /// The segment is looked for where there is no directory. Segments count from 0.
    NotFolder { segment: u32 },
    /// The stored block with this CID's text has no kind, or can't stand where it stands.
    BadStored { cid: Bytes, fault: BlockFault },
    /// No block is stored under the CID with this text.
    Gone { cid: Bytes },
    /// A stored block isn't any more what it was.
    Changed,
    /// The next block lies more than 512 blocks deep.
    TooDeep,
    /// The folder with this path, in percent-encoding, lies on level 33.
    DeepFolder { path: Bytes },
    /// The path, in percent-encoding, ends in a name that isn't good, or stands twice in its folder.
    BadName { path: Bytes },
    /// The path, in percent-encoding, ends in a name of more than 255 bytes.
    LongName { path: Bytes },
    /// These two names of a sharded directory, in percent-encoding with a space between them, have one hash.
    SameHash { names: Bytes },
    /// What has the path, in percent-encoding, is neither a file nor a folder.
    NotPlain { path: Bytes },
    /// What has the path, in percent-encoding, passes a limit of the import.
    TooBig { path: Bytes },
    /// A fault of the door or of a link was counted.
    DoorFault,
    /// The pack failed while links were served, or a stored block isn't any more what it was.
    StoreFault,
    /// The reply has this status, and is neither an answer nor shows that the path leads nowhere.
    Status { status: u16 },
    /// The reply's media type isn't that of the query's answer, or it states a coding.
    BadType,
    /// What came is no head of a reply.
    BadReplyHead,
    /// The reply's body is framed in no way, or breaks its framing.
    BadFraming,
    /// A fault of the dial or of its link was counted.
    PeerFault,
    /// Each peer of a swarm was refused: the word of each refusal, in the order of their addresses, each behind a space, and the
    /// exit status of the first one.
    NoPeerLeft { words: Bytes, status: u8 },
    /// The root of a swarm is a directory, a shard or a symbolic link.
    NotFile,
    /// The block of a swarm's root, which was accepted, has no kind.
    BadRoot { fault: BlockFault },
    /// The query of an audit with this number has another answer than the one that is expected of it.
    Differs { query: u64 },
}

impl From<AllocError> for CommandFault {
    ghost use Rattle.std.specs.Prelude.{◌≡◌};
    ghost use Rattle.tg_commands.specs.declared.fault.CommandFault.TheVariants.{OutOfMemory};

    ghost from_gives = { λ _ refusal. refusal ≡ OutOfMemory };

    fn from(_fault: AllocError) -> CommandFault {
        CommandFault::OutOfMemory
    }
}

impl From<WordsFault> for CommandFault {
    ghost use Rattle.std.specs.Prelude.{◌≡◌};
    ghost use Rattle.tg_commands.specs.Lines.{refusal_of};

    ghost from_gives = { λ fault refusal. refusal ≡ refusal_of fault };

    fn from(fault: WordsFault) -> CommandFault {
        match fault {
            WordsFault::Usage => CommandFault::Usage,
            WordsFault::OutOfMemory => CommandFault::OutOfMemory,
        }
    }
}

impl CommandFault {
    ghost use Rattle.std.specs.Prelude.{◌++◌, decimal};
    ghost use Rattle.tg_commands.specs.Lines.{line_of, numbers_in, status_of, word_of};

    /// The exit status.
    pub fn status(&self) -> u8
        ensures { result ≡ status_of self.now }
    {
        match self {
            CommandFault::Usage => 2,
            CommandFault::BadDigest { .. }
            | CommandFault::BadBlock { .. }
            | CommandFault::WrongBlock { .. }
            | CommandFault::BadReceived { .. }
            | CommandFault::BadSize { .. }
            | CommandFault::Truncated { .. }
            | CommandFault::Extra { .. }
            | CommandFault::BadCar
            | CommandFault::BadType
            | CommandFault::BadReplyHead
            | CommandFault::BadFraming
            | CommandFault::BadRoot { .. }
            | CommandFault::Differs { .. } => 3,
            CommandFault::Status { .. } => 4,
            CommandFault::DoorFault | CommandFault::PeerFault => 5,
            CommandFault::InputFault
            | CommandFault::SinkFault
            | CommandFault::PackFault
            | CommandFault::FolderFault
            | CommandFault::NotCar { .. }
            | CommandFault::BadPack { .. }
            | CommandFault::Unfinished
            | CommandFault::TornPack { .. }
            | CommandFault::BadStored { .. }
            | CommandFault::Gone { .. }
            | CommandFault::Changed
            | CommandFault::BadName { .. }
            | CommandFault::SameHash { .. }
            | CommandFault::NotPlain { .. }
            | CommandFault::StoreFault => 6,
            CommandFault::BlockLimit
            | CommandFault::Limit { .. }
            | CommandFault::PackLimit { .. }
            | CommandFault::TooDeep
            | CommandFault::DeepFolder { .. }
            | CommandFault::LongName { .. }
            | CommandFault::TooBig { .. } => 7,
            CommandFault::OutOfMemory => 8,
            CommandFault::NoRoot
            | CommandFault::NotThere { .. }
            | CommandFault::NotFolder { .. }
            | CommandFault::NotFile => 9,
            CommandFault::NoPeerLeft { status, .. } => *status,
        }
    }

    /// Puts the line that says why. The error is a fault of the sink, which then holds a front of the line. It takes no
    /// memory.
    pub fn report<E: Sink>(&self, err: &mut E) -> Result<(), Failed>
        ensures put { OnOk result (Put (line_of self.now) (into E.sink err.old err.new)) }
        ensures front { OnErr result (PutFront (line_of self.now) (into E.sink err.old err.new)) }
    {
        let (first, second) = self.numbers();
        let mut one = Buffer::new();
        let mut two = Buffer::new();
        let first = one.format(first);
        let second = two.format(second);
        let (word, detail, space, other) = self.parts(first.as_bytes(), second.as_bytes());
        put_pieces(err, &[b"tgate: ", word, detail, space, other, b"\n"])
    }

    /// The numbers that the line shows: an offset, a segment, a count or a limit, or two sizes; and 0 where it shows
    /// none.
    fn numbers(&self) -> (u64, u64)
        ensures { result ≡ numbers_in self.now }
    {
        match self {
            CommandFault::NotCar { at }
            | CommandFault::BadPack { at }
            | CommandFault::TornPack { at }
            | CommandFault::PackLimit { at } => (*at, 0),
            CommandFault::NotThere { segment } | CommandFault::NotFolder { segment } => {
                (u64::from(*segment), 0)
            }
            CommandFault::Truncated { sections, .. } | CommandFault::Extra { sections } => (
                *sections, 0,
            ),
            CommandFault::Limit { number, .. } => (*number, 0),
            CommandFault::Status { status } => (u64::from(*status), 0),
            CommandFault::Differs { query } => (*query, 0),
            CommandFault::BadSize { declared, actual } => (*declared, *actual),
            _ => (0, 0),
        }
    }

    /// The word, and the details behind it, of which some may be the digits of the numbers.
    fn parts<'a>(
        &'a self,
        first: &'a [u8],
        second: &'a [u8],
    ) -> (&'a [u8], &'a [u8], &'a [u8], &'a [u8])
        requires first { first.now ≡ decimal (numbers_in self.now).0 }
        requires second { second.now ≡ decimal (numbers_in self.now).1 }
        ensures { result.0.now ++ (result.1.now ++ (result.2.now ++ result.3.now)) ≡ word_of self.now }
    {
        match self {
            CommandFault::Usage => (b"usage", b"", b"", b""),
            CommandFault::BadDigest { cid } => (b"BadDigest ", cid.as_slice(), b"", b""),
            CommandFault::BadBlock { cid, fault } => (
                b"BadBlock ",
                cid.as_slice(),
                b"",
                cause(fault),
            ),
            CommandFault::BlockLimit => (b"Limit Block 2097152", b"", b"", b""),
            CommandFault::InputFault => (b"InputFault", b"", b"", b""),
            CommandFault::SinkFault => (b"SinkFault", b"", b"", b""),
            CommandFault::OutOfMemory => (b"OutOfMemory", b"", b"", b""),
            CommandFault::PackFault => (b"PackFault", b"", b"", b""),
            CommandFault::FolderFault => (b"FolderFault", b"", b"", b""),
            CommandFault::NotCar { .. } => (b"NotCar ", first, b"", b""),
            CommandFault::BadPack { .. } => (b"BadDigest ", first, b"", b""),
            CommandFault::Unfinished => (b"Unfinished", b"", b"", b""),
            CommandFault::TornPack { .. } => (b"Truncated ", first, b"", b""),
            CommandFault::PackLimit { .. } => (b"BlockLimit ", first, b"", b""),
            CommandFault::WrongBlock { want, got } => {
                (b"WrongBlock ", want.as_slice(), b" ", got.as_slice())
            }
            CommandFault::BadReceived { cid, fault } => {
                (b"BadBlock ", cid.as_slice(), b"", fault_word(fault))
            }
            CommandFault::BadSize { .. } => (b"BadSize ", first, b" ", second),
            CommandFault::Truncated { want, .. } => (b"Truncated ", want.as_slice(), b" ", first),
            CommandFault::Extra { .. } => (b"Extra ", first, b"", b""),
            CommandFault::BadCar => (b"BadCar", b"", b"", b""),
            CommandFault::Limit { kind, .. } => (b"Limit ", kind_word(*kind), b" ", first),
            CommandFault::NoRoot => (b"NoRoot", b"", b"", b""),
            CommandFault::NotThere { .. } => (b"NotThere ", first, b"", b""),
            CommandFault::NotFolder { .. } => (b"NotFolder ", first, b"", b""),
            CommandFault::BadStored { cid, fault } => {
                (b"BadBlock ", cid.as_slice(), b"", fault_word(fault))
            }
            CommandFault::Gone { cid } => (b"Gone ", cid.as_slice(), b"", b""),
            CommandFault::Changed => (b"Changed", b"", b"", b""),
            CommandFault::TooDeep => (b"TooDeep", b"", b"", b""),
            CommandFault::DeepFolder { path } => (b"TooDeep ", path.as_slice(), b"", b""),
            CommandFault::BadName { path } => (b"BadName ", path.as_slice(), b"", b""),
            CommandFault::LongName { path } => (b"LongName ", path.as_slice(), b"", b""),
            CommandFault::SameHash { names } => (b"SameHash ", names.as_slice(), b"", b""),
            CommandFault::NotPlain { path } => (b"NotPlain ", path.as_slice(), b"", b""),
            CommandFault::TooBig { path } => (b"TooBig ", path.as_slice(), b"", b""),
            CommandFault::DoorFault => (b"DoorFault", b"", b"", b""),
            CommandFault::StoreFault => (b"Store", b"", b"", b""),
            CommandFault::Status { .. } => (b"Status ", first, b"", b""),
            CommandFault::BadType => (b"BadType", b"", b"", b""),
            CommandFault::BadReplyHead => (b"BadReplyHead", b"", b"", b""),
            CommandFault::BadFraming => (b"BadFraming", b"", b"", b""),
            CommandFault::PeerFault => (b"PeerFault", b"", b"", b""),
            CommandFault::NoPeerLeft { words, .. } => (b"NoPeerLeft", words.as_slice(), b"", b""),
            CommandFault::NotFile => (b"NotFile", b"", b"", b""),
            CommandFault::BadRoot { fault } => (b"BadRoot", fault_word(fault), b"", b""),
            CommandFault::Differs { .. } => (b"Differs ", first, b"", b""),
        }
    }
}

/// The name of a kind of limit.
fn kind_word(kind: LimitKind) -> &'static [u8]
    ensures { result.now ≡ kind_word kind }
{
    match kind {
        LimitKind::Block => b"Block",
        LimitKind::Depth => b"Depth",
        LimitKind::Entries => b"Entries",
        LimitKind::Names => b"Names",
        LimitKind::Received => b"Received",
        LimitKind::Output => b"Output",
        LimitKind::SeenBlocks => b"SeenBlocks",
        LimitKind::SeenBytes => b"SeenBytes",
        LimitKind::Reused => b"Reused",
    }
}

/// What stands behind the CID on a line that says what is at fault of a stored block: a space and the word.
fn fault_word(fault: &BlockFault) -> &[u8]
    ensures { result.now ≡ fault_word fault.now }
{
    match fault {
        BlockFault::BadNode(_) => b" BadNode",
        BlockFault::BadLink { .. } => b" BadLink",
        BlockFault::NoUnix => b" NoUnix",
        BlockFault::BadUnix(_) => b" BadUnix",
        BlockFault::BadSizes { .. } => b" BadSizes",
        BlockFault::HugeSizes => b" HugeSizes",
        BlockFault::BadName { .. } => b" BadName",
        BlockFault::DoubledName { .. } => b" DoubledName",
        BlockFault::BadBits { .. } => b" BadBits",
        BlockFault::BadSlot { .. } => b" BadSlot",
        BlockFault::BadShape => b" BadShape",
        BlockFault::BelowEight => b" BelowEight",
        BlockFault::Misplaced { .. } => b" Misplaced",
        BlockFault::NotShard => b" NotShard",
        BlockFault::NotPart => b" NotPart",
        BlockFault::OutOfMemory => b" OutOfMemory",
    }
}

/// What stands behind the CID on a line that says what is at fault of its block: a space and the word.
fn cause(fault: &NodeFault) -> &[u8]
    ensures { result.now ≡ cause_of fault.now }
{
    match fault {
        NodeFault::BadNode => b" BadNode",
        NodeFault::BadLink => b" BadLink",
        NodeFault::BadUnix => b" BadUnix",
    }
}

/// Puts the text, and refuses where out fails.
pub fn put_text<O: Sink>(out: &mut O, text: &[u8]) -> Result<(), CommandFault>
    ensures { PutEnds text.now (into O.sink out.old out.new) (end_of result) }
{
    match put_all(out, text) {
        Ok(()) => Ok(()),
        Err(_) => Err(CommandFault::SinkFault),
    }
}
