//! Where a reader of a body is, and what one step gives.
ghost use Rattle.std.specs.Prelude.{◌≡◌, ◌<◌, ◌⊎◌};
ghost use Rattle.tg_body.specs.declared.stage.Stage.TheVariants as stages;
ghost use Rattle.tg_body.specs.declared.stage.Step.{Step};

/// Where a reader is.
#[derive(Clone, Copy)]
pub(crate) enum Stage {
    /// So many bytes of a stated length are to come.
    Length { left: u64 },
    /// The body goes on until the link closes.
    UntilClose,
    /// A chunk line is to come.
    Line,
    /// So many bytes of a chunk are to come; where none are, the CR behind it is.
    Data { left: u64 },
    /// The LF behind a chunk and its CR is to come.
    Feed,
    /// The trailer is to come; its line at hand begins behind so many bytes.
    Trailer { begun: usize },
    /// The body is whole.
    Done,
    /// There is no framing.
    Broken,
}

/// What one step gave.
#[derive(Clone, Copy)]
pub(crate) enum Step {
    /// Nothing yet: all of the bytes were taken.
    Need,
    /// Nothing, and there may be more bytes.
    Next,
    /// The bytes that were taken are bytes of the body.
    Part,
    /// The body is whole.
    End,
}

/// The stage behind a chunk line that states this size.
pub(crate) fn behind_line(stated: u64) -> Stage
    ensures { ((stated ≡ 0) × (result ≡ stages.Trailer 0)) ⊎ ((0 < stated) × (result ≡ stages.Data stated)) }
{
    if stated == 0 {
        Stage::Trailer { begun: 0 }
    } else {
        Stage::Data { left: stated }
    }
}

/// What so many bytes of the body are as a step.
pub(crate) fn given(taken: usize) -> Step
    ensures { ((taken ≡ 0) × (result ≡ Step.Need)) ⊎ ((0 < taken) × (result ≡ Step.Part)) }
{
    if taken == 0 { Step::Need } else { Step::Part }
}
