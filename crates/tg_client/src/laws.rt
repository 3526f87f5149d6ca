//! What holds of the sections that stand whole in the bytes of a CAR.
ghost use Rattle.tg_client.specs.Body.{BodyStands};
ghost use Rattle.tg_client.specs.BodyLaws.{BodyLaws};
ghost use Rattle.tg_client.specs.ReceivedLaws.{ReceivedLaws};
ghost use Rattle.tg_client.specs.Telling.{BodyTells};

/// The sections that stand whole in the bytes of a CAR are determined by the bytes; of a front of them fewer stand
/// whole; and where a CAR goes on with the bytes none of their fronts is refused. A CAR of the same sections doesn't go
/// on, and behind one the header is whole.
///
/// CARv1 specification, Data.
pub fn received_sections()
    ensures { ReceivedLaws }
{
    tg_car::laws::car_laws();
    tg_cid::laws::length_laws();
    tg_varint::laws::spelling_laws();
}

/// The CAR of sections that fit a query is refused in none of its fronts, but for counted faults and want of memory, and
/// accepted once it came whole. That of the blocks on a path that leads nowhere is refused for that segment alone, before
/// its end.
///
/// CARv1 specification; Trustless Gateway specification, CAR responses; Path Gateway specification, Path Resolution.
pub fn bodies()
    ensures { BodyLaws }
{
    received_sections();
    tg_car::laws::car_laws();
    tg_model_laws::one_fit();
    tg_model_laws::verified_sections();
    tg_verify::laws::verified_answers();
}

/// What stands of a CAR of which nothing was refused: the sections that are whole in its bytes, and what is written for
/// them, beside each sound DAG with the query's root too.
///
/// CARv1 specification; Trustless Gateway specification, CAR responses.
pub fn standing_bodies()
    ensures { BodyStands }
{
    received_sections();
    tg_verify::laws::verified_answers();
}

/// What the verifier of a CAR of which nothing was refused tells of the query's path is so in each sound DAG with the
/// query's root, or a block that came and one of the DAG are different bytes with one SHA-256; and it is told once no block
/// is wanted, but where the block alone is asked for.
///
/// Path Gateway specification, Path Resolution; UnixFS specification, node types.
pub fn told_bodies()
    ensures { BodyTells }
{
    tg_verify::laws::told_terminals();
}
