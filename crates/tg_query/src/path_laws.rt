//! Laws of paths, words and ranges, each the contract of a function that does nothing.
ghost use Rattle.std.specs.Prelude.{◌≡◌, ◌↔◌, ◌++◌, ℕ, List, Option, Some, Ok, Err};
ghost use Rattle.tg_cid.specs.Cid.{CidParts};
ghost use Rattle.tg_cid.specs.Faults.{HasTextCause};
ghost use Rattle.tg_cid.specs.Spelling.{CidText};
ghost use Rattle.tg_cid.specs.declared.fault.CidFault.{CidFault};
ghost use Rattle.tg_model.specs.Queries.{SpanParts};
ghost use Rattle.tg_query.specs.CidAnswers.{root_of};
ghost use Rattle.tg_query.specs.Cuts.{IsCut, behind_front, cut_first};
ghost use Rattle.tg_query.specs.Paths.{PathText, path_of};
ghost use Rattle.tg_query.specs.Spans.{SpanText, span_of};
ghost use Rattle.tg_query.specs.WordTexts.{RootedText, WordText, rooted_of, word_of};
ghost use Rattle.tg_query.specs.declared.fault.QueryFault.{QueryFault};

/// A text is cut at the first place of a byte as the relation says, and what stands behind a front is what is computed.
pub fn cuts_read()
    ensures front { (front text rest : List ℕ) → (behind_front front text ≡ Some rest) ↔ (text ≡ front ++ rest) }
    ensures cut { (byte : ℕ) (text front : List ℕ) (rest : Option (List ℕ))
        → (cut_first byte text ≡ (front, rest)) ↔ IsCut byte text front rest }
{}

/// What is computed of a path is what its grammar says, and its one fault is `BadPath`.
///
/// Path Gateway specification.
pub fn paths_read()
    ensures path { (text : List ℕ) (path : List (List ℕ)) → (path_of text ≡ Ok path) ↔ PathText text path }
    ensures fault { (text : List ℕ) (fault : QueryFault) → path_of text ≡ Err fault → fault ≡ QueryFault.BadPath }
{
    tg_model::laws::good_names();
}

/// What is computed of a root, of a root with a path and of a word is what the grammar says, and a root is refused by
/// the cause of its CID's text, which is never want of memory.
///
/// CID and Path Gateway specifications.
pub fn roots_read()
    ensures root { (text : List ℕ) (cid : CidParts) → (root_of text ≡ Ok cid) ↔ CidText cid text }
    ensures cause { (text : List ℕ) (fault : QueryFault) → root_of text ≡ Err fault
        → (inner : CidFault) × (fault ≡ QueryFault.BadCid inner) × HasTextCause text inner }
    ensures rooted { (text : List ℕ) (root : CidParts) (path : List (List ℕ))
        → (rooted_of text ≡ Ok (root, path)) ↔ RootedText text root path }
    ensures word { (word : List ℕ) (root : CidParts) (path : List (List ℕ))
        → (word_of word ≡ Ok (root, path)) ↔ WordText word root path }
{
    tg_varint::laws::spelling_laws();
    tg_base32::laws::text_laws();
    tg_model::laws::good_names();
}

/// What is computed of a range is what its grammar says, and its one fault is `BadRange`.
///
/// Trustless Gateway specification, entity-bytes.
pub fn spans_read()
    ensures span { (text : List ℕ) (span : SpanParts) → (span_of text ≡ Ok span) ↔ SpanText text span }
    ensures fault { (text : List ℕ) (fault : QueryFault) → span_of text ≡ Err fault → fault ≡ QueryFault.BadRange }
{}
