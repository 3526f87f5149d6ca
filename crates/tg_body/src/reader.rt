//! A body read in pieces of any lengths.
ghost use Rattle.std.specs.Prelude.{◌≡◌, ◌≢◌, ℕ, ◌<◌, ◌≤◌, ◌⊎◌, length, Some, None, IfOk, OnOk, Ok, Err, MatchResult};
ghost use Rattle.tg_http.specs.declared.fault.HttpFault.{HttpFault};
ghost use Rattle.tg_http.specs.declared.framing.Framing.{Framing};
ghost use Rattle.tg_body.specs.Bodies.{BodyText};
ghost use Rattle.tg_body.specs.History.{History, nothing, with_feed, with_end};
ghost use Rattle.tg_body.specs.State.{StandsFor};
ghost use Rattle.tg_body.specs.Steps.{Steps, Stops, Advances};
ghost use Rattle.tg_body.specs.declared.body.Body.{Body};
ghost use Rattle.tg_body.specs.declared.stage.Stage.{Stage};
ghost use Rattle.tg_body.specs.declared.stage.Stage.TheVariants as stages;

use crate::body::Body;
use crate::stage::{Stage, Step, behind_line, given};
use crate::text::{is_trailer, keep_line, stated_size};
use std::alloc::Global;
use tg_bytes::Bytes;
use tg_http::{Framing, HttpFault, MAX_TEXT, is_empty_line};

/// A reader of a body that is fed its bytes in pieces of any lengths. It gives parts of the pieces and copies none of
/// them: it keeps a chunk line or a trailer alone, of at most 16,384 bytes. After a refusal each call gives that
/// refusal, and after the end each feed gives the end.
///
/// RFC 9112, sections 6.3 and 7.1.
#[derive(Drop)]
pub struct BodyReader {
    framing: Framing,
    refused: Option<HttpFault>,
    stage: Stage,
    came: Bytes,
}

impl BodyReader {
    /// A reader of a body in this framing. It takes no memory until a chunk line comes.
    pub fn new(alloc: Global, framing: Framing) -> BodyReader
        ensures stands { StandsFor result nothing }
        ensures framing { result.framing ≡ framing }
    {
        let stage = match framing {
            Framing::Length(number) => Stage::Length { left: number },
            Framing::Chunked => Stage::Line,
            Framing::UntilClose => Stage::UntilClose,
            Framing::Broken => Stage::Broken,
        };
        BodyReader {
            framing,
            refused: None,
            stage,
            came: Bytes::new(alloc),
        }
    }

    /// Takes bytes of the piece up to the end of a part of the body, or to the body's end, and says how many and which.
    ///
    /// RFC 9112, sections 6.3 and 7.1. Once the last byte of a length was given, a feed of any piece, of an empty one
    /// too, takes nothing and gives `End`; over chunks `End` comes with the last byte of the trailer; a body that goes
    /// on until the link closes is never ended here. Errors: `BadFraming` at the first byte with which no body goes on,
    /// where chunk lines and trailers are judged once they are whole or have 16,384 bytes, or at once where there is no
    /// framing; and `OutOfMemory` where no room for bytes of a chunk line or of a trailer is found, which an empty
    /// piece never gives.
    pub fn feed(&mut self, piece: &[u8]) -> Result<(usize, Body), HttpFault>
        ensures within { IfOk result (λ told. told.0 ≤ length piece.now) }
        ensures moves { IfOk result (λ told. 0 < length piece.now → (0 < told.0) ⊎ (told.1 ≡ Body.End)) }
        ensures need { IfOk result (λ told. told.1 ≡ Body.Need → told.0 ≡ length piece.now) }
        ensures part { (taken start end : ℕ) → result ≡ Ok (taken, Body.Part start end) → (start < end)
            × (end ≡ taken) }
        // Each history that the reader stood for, with this call added, is one that it stands for.
        ensures stands { (h : History) → StandsFor self.old h → StandsFor self.new (with_feed h piece.now result) }
        // Where the body is whole nothing is taken, and the end is given.
        ensures whole { (h : History) → StandsFor self.old h → h.stop ≡ None → BodyText self.old.framing h.given h.fed
            → self.old.framing ≢ Framing.UntilClose → result ≡ Ok (0, Body.End) }
        // After a refusal each call gives that refusal and changes nothing.
        ensures again { (fault : HttpFault) → self.old.refused ≡ Some fault → (result ≡ Err fault)
            × (self.new ≡ self.old) }
        ensures kept { MatchResult result (λ _. (self.old.refused ≡ None) × (self.new.refused ≡ None))
            (λ fault. self.new.refused ≡ Some fault) }
        ensures framing { self.new.framing ≡ self.old.framing }
    {
        tg_http::laws::line_laws();
        if let Some(fault) = self.refused {
            return Err(fault);
        }
        match self.advance(piece) {
            Ok(told) => Ok(told),
            Err(fault) => {
                self.refused = Some(fault);
                Err(fault)
            }
        }
    }

    /// Says that no byte is to come.
    ///
    /// RFC 9112, section 8. Errors: `BadFraming` where the bytes end inside a body of stated length or in chunks, or
    /// where there is no framing; and a refusal of before.
    pub fn end(&mut self) -> Result<(), HttpFault>
        // What was fed is then a body in the framing, and what was given is that body.
        ensures whole { (h : History) → StandsFor self.old h → OnOk result (BodyText self.old.framing h.given h.fed) }
        ensures stands { (h : History) → StandsFor self.old h → StandsFor self.new (with_end h result) }
        // After a refusal each call gives that refusal and changes nothing.
        ensures again { (fault : HttpFault) → self.old.refused ≡ Some fault → (result ≡ Err fault)
            × (self.new ≡ self.old) }
        ensures kept { MatchResult result (λ _. (self.old.refused ≡ None) × (self.new ≡ self.old))
            (λ fault. self.new.refused ≡ Some fault) }
        ensures framing { self.new.framing ≡ self.old.framing }
    {
        if let Some(fault) = self.refused {
            return Err(fault);
        }
        match self.stage {
            Stage::Done | Stage::UntilClose | Stage::Length { left: 0 } => Ok(()),
            _ => {
                self.refused = Some(HttpFault::BadFraming);
                Err(HttpFault::BadFraming)
            }
        }
    }

    /// The same as `feed` of a reader that refused nothing, but that no refusal is kept.
    fn advance(&mut self, piece: &[u8]) -> Result<(usize, Body), HttpFault>
        ensures { MatchResult result (λ told. Advances self.old self.new piece.now told.0 told.1)
            (λ fault. Stops self.old self.new piece.now fault) }
    {
        let mut at = 0;
        loop {
            let (taken, step) = self.step(&piece[at..])?;
            let start = at;
            at += taken;
            match step {
                Step::Next => {}
                Step::Need => return Ok((at, Body::Need)),
                Step::Part => return Ok((at, Body::Part { start, end: at })),
                Step::End => return Ok((at, Body::End)),
            }
        }
    }

    /// Takes bytes of the piece in one stage.
    fn step(&mut self, piece: &[u8]) -> Result<(usize, Step), HttpFault>
        ensures { MatchResult result (λ told. Steps self.old self.new piece.now told.0 told.1)
            (λ fault. Stops self.old self.new piece.now fault) }
    {
        match self.stage {
            Stage::Length { left } => Ok(self.take_length(piece, left)),
            Stage::UntilClose => Ok((piece.len(), given(piece.len()))),
            Stage::Line => self.take_line(piece),
            Stage::Data { left: 0 } => self.take_byte(piece, b'\r', Stage::Feed),
            Stage::Data { left } => Ok(self.take_data(piece, left)),
            Stage::Feed => self.take_byte(piece, b'\n', Stage::Line),
            Stage::Trailer { begun } => self.take_trailer(piece, begun),
            Stage::Done => Ok((0, Step::End)),
            Stage::Broken => Err(HttpFault::BadFraming),
        }
    }

    /// Takes bytes of a body of which so many are to come.
    fn take_length(&mut self, piece: &[u8], left: u64) -> (usize, Step)
        requires { self.old.stage ≡ stages.Length left }
        ensures { Steps self.old self.new piece.now result.0 result.1 }
    {
        if left == 0 {
            self.stage = Stage::Done;
            return (0, Step::End);
        }
        let taken = left.min(piece.len() as u64) as usize;
        self.stage = Stage::Length {
            left: left - taken as u64,
        };
        (taken, given(taken))
    }

    /// Takes bytes of a chunk of which so many are to come.
    fn take_data(&mut self, piece: &[u8], left: u64) -> (usize, Step)
        requires stage { self.old.stage ≡ stages.Data left }
        requires some { 0 < left }
        ensures { Steps self.old self.new piece.now result.0 result.1 }
    {
        let taken = left.min(piece.len() as u64) as usize;
        self.stage = Stage::Data {
            left: left - taken as u64,
        };
        (taken, given(taken))
    }

    /// Takes one byte behind a chunk, which must be this one.
    fn take_byte(&mut self, piece: &[u8], byte: u8, next: Stage) -> Result<(usize, Step), HttpFault>
        requires { ((self.old.stage ≡ stages.Data 0) × (byte ≡ 13) × (next ≡ stages.Feed))
            ⊎ ((self.old.stage ≡ stages.Feed) × (byte ≡ 10) × (next ≡ stages.Line)) }
        ensures { MatchResult result (λ told. Steps self.old self.new piece.now told.0 told.1)
            (λ fault. Stops self.old self.new piece.now fault) }
    {
        match piece.first() {
            None => Ok((0, Step::Need)),
            Some(first) if *first == byte => {
                self.stage = next;
                Ok((1, Step::Next))
            }
            Some(_) => Err(HttpFault::BadFraming),
        }
    }

    /// Takes bytes of a chunk line.
    fn take_line(&mut self, piece: &[u8]) -> Result<(usize, Step), HttpFault>
        requires { self.old.stage ≡ stages.Line }
        ensures { MatchResult result (λ told. Steps self.old self.new piece.now told.0 told.1)
            (λ fault. Stops self.old self.new piece.now fault) }
    {
        let Some(size) = keep_line(&mut self.came, piece)? else {
            return Ok((piece.len(), Step::Need));
        };
        let Some(stated) = stated_size(self.came.as_slice()) else {
            return Err(HttpFault::BadFraming);
        };
        self.came.clear();
        self.stage = behind_line(stated);
        Ok((size, Step::Next))
    }

    /// Takes bytes of the trailer, whose line at hand begins behind so many bytes of what came.
    fn take_trailer(&mut self, piece: &[u8], begun: usize) -> Result<(usize, Step), HttpFault>
        requires { self.old.stage ≡ stages.Trailer begun }
        ensures { MatchResult result (λ told. Steps self.old self.new piece.now told.0 told.1)
            (λ fault. Stops self.old self.new piece.now fault) }
    {
        let Some(size) = keep_line(&mut self.came, piece)? else {
            return Ok((piece.len(), Step::Need));
        };
        let came = self.came.as_slice();
        if !is_empty_line(&came[begun.min(came.len())..]) {
            if came.len() == MAX_TEXT {
                return Err(HttpFault::BadFraming);
            }
            self.stage = Stage::Trailer { begun: came.len() };
            return Ok((size, Step::Next));
        }
        if !is_trailer(came) {
            return Err(HttpFault::BadFraming);
        }
        self.stage = Stage::Done;
        Ok((size, Step::End))
    }
}
