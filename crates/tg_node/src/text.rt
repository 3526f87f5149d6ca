//! The text that `node` writes of a block.
ghost use Rattle.std.specs.Prelude.{◌≡◌, ℕ, List, [], ◌∷◌, ◌++◌, length, codes, OnOk, IsErrOf, MatchResult, ◌⊎◌};
ghost use Rattle.std.specs.List.{flat_map};
ghost use Rattle.tg_cid.specs.Cid.{CidParts};
ghost use Rattle.tg_cid.specs.declared.cid.Codec.{Codec};
ghost use Rattle.tg_dagpb.specs.Node.{NodeText};
ghost use Rattle.tg_dagpb.specs.declared.Node.{Node};
ghost use Rattle.tg_node.specs.declared.fault.TextFault.{TextFault};
ghost use Rattle.tg_node.specs.NodeTexts.{Exact, IsCid, IsNodeTextOf, HasNodeTextCause, NodeLines, HasDagPbCause};
ghost use Rattle.tg_node.specs.NodeTexts.{LinesOfNode, HasLinesCause, IsCaused, LinkLine, LinkLines, HasLinkCause};
ghost use Rattle.tg_node.specs.NodeTexts.{PayloadLines, HasBadPayload, HasPayloadCause, count_line, size_line};
ghost use Rattle.tg_node.specs.NodeTexts.{unix_line, link_line, labelled, name_text, inline_length};

use crate::fault::{NodeFault, TextFault};
use crate::laws;
use itoa::Buffer;
use std::alloc::{AllocError, Global};
use tg_bytes::Bytes;
use tg_cid::{Cid, Codec};
use tg_dagpb::{Link, Node};
use tg_escape::push_escaped;
use tg_unixfs::Unix;

/// What `node` writes of a block that the CID names.
///
/// Errors, in this order: `BadNode`, `BadLink` and `BadUnix` for a DAG-PB CID, each where its cause holds, and
/// `OutOfMemory` for want of memory alone.
pub fn node_text(alloc: Global, cid: &Cid, block: &[u8]) -> Result<Bytes, TextFault>
    ensures exact { Exact (IsNodeTextOf cid.now block.now) (HasNodeTextCause cid.now block.now) result }
    // Memory is wanted for a raw block and for a block that is a node's, so never for one that is refused as `BadNode`.
    ensures memory { IsErrOf result TextFault.OutOfMemory
        → (cid.now.codec ≡ Codec.Raw) ⊎ ((node : Node) × NodeText node block.now) }
{
    match cid.codec() {
        Codec::Raw => raw_text(alloc, block),
        Codec::DagPb => dag_pb_text(alloc, block),
    }
}

/// The line of a raw block.
fn raw_text(alloc: Global, block: &[u8]) -> Result<Bytes, TextFault>
    ensures { MatchResult result (λ text. text ≡ count_line (codes "raw ") (length block.now))
        (λ e. e ≡ TextFault.OutOfMemory) }
{
    let mut text = Bytes::new(alloc);
    push_count(&mut text, b"raw ", block.len() as u64)?;
    Ok(text)
}

/// The lines of a block that is a DAG-PB node.
fn dag_pb_text(alloc: Global, block: &[u8]) -> Result<Bytes, TextFault>
    ensures exact { Exact (NodeLines block.now) (HasDagPbCause block.now) result }
    ensures memory { IsErrOf result TextFault.OutOfMemory → (node : Node) × NodeText node block.now }
{
    laws::one_node_text();
    let node = tg_dagpb::decode(alloc, block)?;
    lines_of(alloc, &node)
}

/// The lines of a node.
fn lines_of(alloc: Global, node: &Node) -> Result<Bytes, TextFault>
    ensures { MatchResult result (λ text. LinesOfNode node.now text × (HasBadPayload node.now.payload → ⊥))
        (λ e. IsCaused (HasLinesCause node.now) e) }
{
    let links = node.links.as_slice();
    let mut text = Bytes::new(alloc);
    push_count(&mut text, b"links ", links.len() as u64)?;
    push_links(&mut text, alloc, links)?;
    push_payload(&mut text, alloc, &node.payload)?;
    Ok(text)
}

/// Adds the lines of links.
fn push_links(text: &mut Bytes, alloc: Global, links: &[Link]) -> Result<(), TextFault>
    ensures { MatchResult result
        (λ _. (lines : List ℕ) × LinkLines links.now lines × (text.new ≡ text.old ++ lines))
        (λ e. IsCaused (HasLinkCause links.now) e) }
{
    for link in links {
        push_link(text, alloc, link)?;
    }
    Ok(())
}

/// Adds the line of a link.
fn push_link(text: &mut Bytes, alloc: Global, link: &Link) -> Result<(), TextFault>
    ensures line { MatchResult result
        (λ _. (line : List ℕ) × LinkLine link.now line × (text.new ≡ text.old ++ line))
        (λ e. IsCaused (HasLinkCause (link.now ∷ [])) e) }
    ensures memory { IsErrOf result TextFault.OutOfMemory → IsCid link.now.hash }
{
    let Ok(cid) = Cid::from_bytes(link.hash.as_slice()) else {
        return Err(TextFault::Block(NodeFault::BadLink));
    };
    let shown = cid.to_text(alloc)?;
    push_link_line(text, alloc, shown.as_slice(), link)?;
    Ok(())
}

/// Adds the line of a link whose CID has this text.
fn push_link_line(
    text: &mut Bytes,
    alloc: Global,
    shown: &[u8],
    link: &Link,
) -> Result<(), AllocError>
    ensures { OnOk result (text.new ≡ text.old ++ link_line shown.now link.now) }
{
    text.push_all(b"link ")?;
    text.push_all(shown)?;
    push_number(text, b" ", link.tsize)?;
    text.push_all(b" ")?;
    push_name(text, alloc, &link.name)?;
    text.push_all(b"\n")
}

/// Adds a name, or `-` where there is none.
fn push_name(text: &mut Bytes, alloc: Global, name: &Option<Bytes>) -> Result<(), AllocError>
    ensures { OnOk result (text.new ≡ text.old ++ name_text name.now) }
{
    let Some(name) = name else {
        return text.push_all(b"-");
    };
    text.push_all(b"=")?;
    push_escaped(text, alloc, name.as_slice())
}

/// Adds the lines of a node's data.
fn push_payload(text: &mut Bytes, alloc: Global, payload: &Option<Bytes>) -> Result<(), TextFault>
    ensures lines { MatchResult result
        (λ _. (lines : List ℕ) × PayloadLines payload.now lines × (text.new ≡ text.old ++ lines)
        × (HasBadPayload payload.now → ⊥))
        (λ e. IsCaused (HasPayloadCause payload.now) e) }
    ensures memory { IsErrOf result TextFault.OutOfMemory → HasBadPayload payload.now → ⊥ }
{
    let Some(payload) = payload else {
        text.push_all(b"payload -\n")?;
        return Ok(());
    };
    let payload = payload.as_slice();
    let unix = tg_unixfs::decode(alloc, payload)?;
    push_count(text, b"payload ", payload.len() as u64)?;
    push_unix(text, &unix)?;
    push_sizes(text, unix.sizes.as_slice())?;
    Ok(())
}

/// Adds the line of UnixFS data.
fn push_unix(text: &mut Bytes, unix: &Unix) -> Result<(), AllocError>
    ensures { OnOk result (text.new ≡ text.old ++ unix_line unix.now) }
{
    push_number(text, b"unix ", Some(unix.kind))?;
    push_number(text, b" filesize ", unix.filesize)?;
    push_number(text, b" inline ", inline_length(&unix.inline))?;
    push_number(text, b" sizes ", Some(unix.sizes.as_slice().len() as u64))?;
    push_number(text, b" hash ", unix.hash)?;
    push_number(text, b" fanout ", unix.fanout)?;
    text.push_all(b"\n")?;
    Ok(())
}

/// The length of inline bytes.
fn inline_length(inline: &Option<Bytes>) -> Option<u64>
    ensures { result ≡ inline_length inline.now }
{
    match inline {
        Some(bytes) => Some(bytes.as_slice().len() as u64),
        None => None,
    }
}

/// Adds the lines of blocksizes.
fn push_sizes(text: &mut Bytes, sizes: &[u64]) -> Result<(), AllocError>
    ensures { OnOk result (text.new ≡ text.old ++ flat_map size_line sizes.now) }
{
    for size in sizes {
        push_count(text, b"size ", *size)?;
    }
    Ok(())
}

/// Adds a line of words and a number.
fn push_count(text: &mut Bytes, words: &[u8], number: u64) -> Result<(), AllocError>
    ensures { OnOk result (text.new ≡ text.old ++ count_line words.now number) }
{
    push_number(text, words, Some(number))?;
    text.push_all(b"\n")
}

/// Adds words and a number, or `-` where there is none.
fn push_number(text: &mut Bytes, words: &[u8], number: Option<u64>) -> Result<(), AllocError>
    ensures { OnOk result (text.new ≡ text.old ++ labelled words.now number) }
{
    text.push_all(words)?;
    match number {
        Some(number) => text.push_all(Buffer::new().format(number).as_bytes()),
        None => text.push_all(b"-"),
    }
}
