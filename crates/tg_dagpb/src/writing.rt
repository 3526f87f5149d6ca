//! The text of nodes and links.
ghost use Rattle.std.specs.Prelude.{◌∷◌, [], IfOk, OnOk};
ghost use Rattle.tg_pbtable.specs.Emitted.{Puts, IsSizeOf};
ghost use Rattle.tg_pbtable.specs.Values.{listed};
ghost use Rattle.tg_dagpb.specs.Node.{CanonicalText};
ghost use Rattle.tg_dagpb.specs.Writing.{BytesTexts, NumberTexts, LinkContent, LinkField};

use crate::{Link, Node};
use std::alloc::{AllocError, Global};
use tg_bytes::Bytes;
use tg_pbtable::{put_bytes, put_head, put_number, size_of_bytes, size_of_number};

/// The canonical text of a node: all links, and then the data. An empty name is written, and an absent one isn't. The
/// error is want of memory.
///
/// IPLD specification, DAG-PB, Serial Format.
pub fn encode(alloc: Global, node: &Node) -> Result<Bytes, AllocError>
    ensures { IfOk result (λ text. CanonicalText node.now text) }
{
    tg_pbtable::laws::table_laws();
    let mut text = Vec::with_capacity(alloc, size_of_node(node))?;
    for link in node.links.as_slice() {
        put_link(&mut text, link)?;
    }
    put_optional(&mut text, 1, &node.payload)?;
    Ok(Bytes::from(text))
}

/// How many bytes the text of a node takes, which is how much is reserved for it.
fn size_of_node(node: &Node) -> usize {
    let mut size = size_of_optional(1, &node.payload);
    for link in node.links.as_slice() {
        size = size.saturating_add(size_of_bytes(2, size_of_link(link)));
    }
    size
}

/// How many bytes the fields of a link take; the greatest number where it is more.
fn size_of_link(link: &Link) -> usize
    ensures { IsSizeOf (λ bytes. LinkContent link.now bytes) result }
{
    size_of_bytes(1, link.hash.as_slice().len())
        .saturating_add(size_of_optional(2, &link.name))
        .saturating_add(size_of_tsize(link.tsize))
}

/// How many bytes a field of bytes takes, where there is one; the greatest number where it is more.
fn size_of_optional(number: u32, bytes: &Option<Bytes>) -> usize
    ensures { IsSizeOf (λ text. BytesTexts number (listed bytes.now) text) result }
{
    match bytes {
        Some(bytes) => size_of_bytes(number, bytes.as_slice().len()),
        None => 0,
    }
}

/// How many bytes the field of a size takes, where there is one.
fn size_of_tsize(tsize: Option<u64>) -> usize
    ensures { IsSizeOf (λ bytes. NumberTexts 3 (listed tsize) bytes) result }
{
    match tsize {
        Some(tsize) => size_of_number(3, tsize),
        None => 0,
    }
}

/// Puts the field of a link behind the text. The error is want of memory.
fn put_link(text: &mut Vec<u8>, link: &Link) -> Result<(), AllocError>
    ensures { OnOk result (Puts (λ bytes. LinkField link.now bytes) text.old.items text.new.items) }
{
    tg_pbtable::laws::table_laws();
    put_head(text, 2, size_of_link(link))?;
    put_content(text, link)
}

/// Puts the fields of a link behind the text. The error is want of memory.
fn put_content(text: &mut Vec<u8>, link: &Link) -> Result<(), AllocError>
    ensures { OnOk result (Puts (λ bytes. LinkContent link.now bytes) text.old.items text.new.items) }
{
    put_bytes(text, 1, link.hash.as_slice())?;
    put_optional(text, 2, &link.name)?;
    put_tsize(text, link.tsize)
}

/// Puts a field of bytes behind the text, where there is one. The error is want of memory.
fn put_optional(text: &mut Vec<u8>, number: u32, bytes: &Option<Bytes>) -> Result<(), AllocError>
    ensures { OnOk result (Puts (λ more. BytesTexts number (listed bytes.now) more) text.old.items text.new.items) }
{
    match bytes {
        Some(bytes) => put_bytes(text, number, bytes.as_slice()),
        None => Ok(()),
    }
}

/// Puts the field of a size behind the text, where there is one. The error is want of memory.
fn put_tsize(text: &mut Vec<u8>, tsize: Option<u64>) -> Result<(), AllocError>
    ensures { OnOk result (Puts (λ bytes. NumberTexts 3 (listed tsize) bytes) text.old.items text.new.items) }
{
    match tsize {
        Some(tsize) => put_number(text, 3, tsize),
        None => Ok(()),
    }
}
