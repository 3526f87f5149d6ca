//! What follows from the definition of a node's block, for the proofs of those who call this crate. Each function does
//! nothing.
ghost use Rattle.std.specs.Prelude.{◌≡◌, ℕ, ◌<◌, ◌≤◌, ◌^◌, List, Some, [], All, length, map, sum};
ghost use Rattle.tg_cid.specs.Cid.{CidParts};
ghost use Rattle.tg_cid.specs.declared.cid.Codec.TheVariants.{DagPb};
ghost use Rattle.tg_dagpb.specs.declared.Link.{Link};
ghost use Rattle.tg_model.specs.Dag.{Children};
ghost use Rattle.tg_model.specs.ImportLayout.{IsWritten, file_unix};
ghost use Rattle.tg_model.specs.Reading.{IsUnixNode, Reads, name_of, parts_of};
ghost use Rattle.tg_model.specs.declared.kinds.Kind.TheVariants.{File};
ghost use Rattle.tg_model.specs.declared.kinds.NewEntry.{NewEntry};
ghost use Rattle.tg_unixfs.specs.declared.Unix.{Unix};
ghost use Rattle.tg_node_writing.specs.BlockOrder.{LinksOfNodes};
ghost use Rattle.tg_node_writing.specs.Nodes.{IsNodeOf, IsOfSha256, LeadTo, node_room};

/// A node's block is written over the DAGs to which its entries lead, it is a UnixFS node with their CIDs and names,
/// and where its CIDs are of sha2-256 it has at most so many bytes.
pub fn written_nodes()
    ensures written { (entries : List NewEntry) (unix : Unix) (block : List ℕ) (children : Children)
        → IsNodeOf entries unix block
        → LeadTo entries children → IsWritten block (map (λ e. e.name) entries) children unix }
    ensures unix_node { (entries : List NewEntry) (unix : Unix) (block : List ℕ) → IsNodeOf entries unix block
        → (links : List Link) × IsUnixNode block links (map (λ e. e.cid) entries) unix
        × (map name_of links ≡ map (λ e. e.name) entries) }
    ensures room { (entries : List NewEntry) (unix : Unix) (block : List ℕ) → IsNodeOf entries unix block
        → All IsOfSha256 entries → length block ≤ node_room entries unix }
{
    tg_pbtable::laws::table_laws();
    tg_varint::laws::spelling_laws();
}

/// The node of a file with this total and a blocksize for each link is read as the file of these parts without inline
/// bytes, under any CID of DAG-PB.
///
/// UnixFS specification, File.
pub fn file_nodes()
    ensures { (entries : List NewEntry) (total : ℕ) (sizes : List ℕ) (block : List ℕ) (cid : CidParts)
        → IsNodeOf entries (file_unix total sizes) block → length sizes ≡ length entries → sum sizes < 2 ^ 63
        → cid.codec ≡ DagPb
        → Reads cid block (File [] (Some total) (parts_of (map (λ e. e.cid) entries) sizes)) }
{}

/// A node that is written for entries links to the CIDs of these entries, whatever its block is read as.
///
/// IPLD specification, DAG-PB; UnixFS specification, Data Format.
pub fn linked_nodes()
    ensures { LinksOfNodes }
{
    tg_dagpb::laws::one_text();
    tg_cid::laws::one_spelling();
}
