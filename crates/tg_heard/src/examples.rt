//! Worked examples of what is heard.
ghost use Rattle.std.specs.Prelude.{◌++◌, ◌∷◌, [], Bool, List, codes, ℕ};
ghost use Rattle.tg_heard.specs.Carried.{Carries, CarriesAbsence};
ghost use Rattle.tg_heard.specs.Examples.{early_hints, empty_section, query_of};
ghost use Rattle.tg_reply.specs.Examples.{first_bytes, second_bytes};

/// What is heard of the reply with the CAR of the empty directory, behind an interim head and with another reply behind
/// it: its one section, as the answer. And of the reply that an entry of it isn't there: the same, as an absence.
///
/// RFC 9110, section 15.2; RFC 9112, section 7.1; CARv1 specification.
pub fn heard_examples()
    ensures answer { (ended : Bool) → Carries (early_hints ++ (first_bytes ++ second_bytes)) ended (query_of []) (empty_section ∷ []) }
    ensures absence { (more : List ℕ) (ended : Bool)
        → CarriesAbsence (second_bytes ++ more) ended (query_of (codes "x" ∷ [])) (empty_section ∷ []) }
{
    crate::replies_carry();
    tg_reply::replies_read();
}
