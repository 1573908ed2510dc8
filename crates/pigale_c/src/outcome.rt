//! How a call for C ends: verdicts, refusals and failures as the number of a status and up to four numbers beside it.
ghost use Rattle.std.specs.Prelude.{◌≡◌};
ghost use Rattle.pigale_c.specs.Numbers.{four as four_of, none as none_of, one as one_of, two as two_of, three as three_of, refusal_answer_of, edge_answer_of, drawing_answer_of, outer_answer_of, bars_answer_of, rects_answer_of, answer_of, outcome_of};

use bar_check::BarVerdict;
use convex_check::ConvexVerdict;
use draw_check::{OuterVerdict, Verdict};
use half_edges::MapFault;
use kuratowski::Kind;
use map_lists::{Ends, VertexId};
use rect_check::RectVerdict;
use refusals::{Refusal, Unserved};
use std::alloc::AllocError;

/// Why edges are not those of a simple graph. An edge goes by its number in the array, from 0.
#[derive(Clone, Copy)]
pub enum EdgeFault {
    /// The edge has an end that is no vertex.
    NoVertex(u32),
    /// The edge joins a vertex to itself.
    SelfLoop(u32),
    /// The two edges join the same vertices; the lesser number comes first.
    Twice(u32, u32),
}

/// Why a call has no answer.
#[derive(Clone, Copy)]
pub enum Failure {
    /// The edges are not those of a simple graph.
    BadEdge(EdgeFault),
    /// The record is refused for this condition.
    Refused(Refusal),
    /// There was not enough memory.
    NoMemory,
    /// The arrays are not what the call takes.
    BadArgument,
}

impl From<AllocError> for Failure {
    ghost use Rattle.std.specs.Prelude.{◌≡◌};
    ghost use Rattle.pigale_c.specs.declared.outcome.Failure.TheVariants.{NoMemory};

    ghost from_gives = { λ _ failure. failure ≡ NoMemory };

    // Converts an allocation error to `NoMemory`.
    fn from(_refused: AllocError) -> Failure {
        Failure::NoMemory
    }
}

impl From<Unserved> for Failure {
    ghost use Rattle.std.specs.Prelude.{◌≡◌};
    ghost use Rattle.pigale_c.specs.Failures.{failure_for};

    ghost from_gives = { λ unserved failure. failure ≡ failure_for unserved };

    // Converts the reason why a record is not served to `Refused` with the condition, or to `NoMemory`.
    fn from(unserved: Unserved) -> Failure {
        match unserved {
            Unserved::Refused(refusal) => Failure::Refused(refusal),
            Unserved::NoMemory => Failure::NoMemory,
        }
    }
}

impl From<MapFault> for Failure {
    ghost use Rattle.std.specs.Prelude.{◌≡◌};
    ghost use Rattle.refusals.specs.Conditions.{unserved_for};
    ghost use Rattle.pigale_c.specs.Failures.{failure_for};

    ghost from_gives = { λ fault failure. failure ≡ failure_for (unserved_for fault) };

    // Converts the fault by which lists are no map to `Refused` with the condition that they break, or `NoMemory`.
    fn from(fault: MapFault) -> Failure {
        Failure::from(Unserved::from(fault))
    }
}

/// How a call ended.
#[derive(Clone, Copy)]
pub enum Outcome {
    /// It did what it was asked for.
    Served,
    /// It did not.
    Failed(Failure),
    /// A straight-line drawing was judged.
    Drawing(Verdict),
    /// A straight-line drawing without another fault was judged by its bends.
    Convex(ConvexVerdict),
    /// Bars were judged.
    Bars(BarVerdict),
    /// Rectangles were judged.
    Rects(RectVerdict),
    /// The outer face of a drawing was judged.
    Outer(OuterVerdict),
    /// A graph has no plane map, by a subdivision of this kind.
    NotPlanar(Kind),
}

/// The numbers beside a status: vertices from 0, or a count. Those that a status does not have are 0.
#[repr(C)]
#[derive(Clone, Copy)]
pub struct Numbers {
    pub first: u32,
    pub second: u32,
    pub third: u32,
    pub fourth: u32,
}

/// A status, and the numbers beside it.
#[derive(Clone, Copy)]
pub struct Answer {
    pub status: u8,
    pub numbers: Numbers,
}

// Returns the answer with `status` and `numbers`.
fn answer_of(status: u8, numbers: Numbers) -> Answer
    ensures { result ≡ record { status = status; numbers = numbers } }
{
    Answer { status, numbers }
}

// Returns the numbers beside a status, `first` to `fourth`. Those that a status does not have are 0.
fn four(first: u32, second: u32, third: u32, fourth: u32) -> Numbers
    ensures { result ≡ four_of first second third fourth }
{
    Numbers {
        first,
        second,
        third,
        fourth,
    }
}

// Returns the numbers of a status that has none: zeros.
fn none() -> Numbers
    ensures { result ≡ none_of }
{
    four(0, 0, 0, 0)
}

// Returns the number of vertex `v` as the numbers beside a status, which are 0 after it.
fn one(v: VertexId) -> Numbers
    ensures { result ≡ one_of v.0 }
{
    four(u32::from(v.0), 0, 0, 0)
}

// Returns the numbers of the vertices `u` and `v` as the numbers beside a status, which are 0 after them.
fn two(u: VertexId, v: VertexId) -> Numbers
    ensures { result ≡ two_of u.0 v.0 }
{
    four(u32::from(u.0), u32::from(v.0), 0, 0)
}

// Returns the numbers of the vertices `a`, `b` and `c` as the numbers beside a status, of which the fourth is 0.
fn three(a: VertexId, b: VertexId, c: VertexId) -> Numbers
    ensures { result ≡ three_of a.0 b.0 c.0 }
{
    four(u32::from(a.0), u32::from(b.0), u32::from(c.0), 0)
}

// Returns the numbers of the ends of the edges `e` and then `f` as the numbers beside a status.
fn ends(e: Ends, f: Ends) -> Numbers
    ensures { result ≡ four_of e.a.0 e.b.0 f.a.0 f.b.0 }
{
    four(
        u32::from(e.a.0),
        u32::from(e.b.0),
        u32::from(f.a.0),
        u32::from(f.b.0),
    )
}

// Returns the status of a condition that a record breaks, from 1 on, and the vertices or the count that it names.
fn refusal_answer(refusal: Refusal) -> Answer
    ensures { result ≡ refusal_answer_of refusal }
{
    match refusal {
        Refusal::OutOfRange(v, u) => answer_of(1, four(u32::from(v), u32::from(u), 0, 0)),
        Refusal::Loop(v) => answer_of(2, four(u32::from(v), 0, 0, 0)),
        Refusal::Repeated(v, u) => answer_of(3, four(u32::from(v), u32::from(u), 0, 0)),
        Refusal::OneSided(v, u) => answer_of(4, four(u32::from(v), u32::from(u), 0, 0)),
        Refusal::Small(n) => answer_of(5, four(u32::from(n), 0, 0, 0)),
        Refusal::Genus(g) => answer_of(6, four(g, 0, 0, 0)),
        Refusal::NotConnected => answer_of(7, none()),
        Refusal::CutVertex(v) => answer_of(8, one(v)),
        Refusal::SeparatingPair(u, v) => answer_of(9, two(u, v)),
        Refusal::OuterNotQuad => answer_of(10, none()),
        Refusal::NotTriangle(v, u) => answer_of(11, two(v, u)),
        Refusal::SeparatingTriangle(a, b, c) => answer_of(12, three(a, b, c)),
        Refusal::NoInner => answer_of(13, none()),
    }
}

// Converts a fault of edges to a status and its numbers.
fn edge_answer(fault: EdgeFault) -> Answer
    ensures { result ≡ edge_answer_of fault }
{
    match fault {
        EdgeFault::NoVertex(i) => answer_of(20, four(i, 0, 0, 0)),
        EdgeFault::SelfLoop(i) => answer_of(21, four(i, 0, 0, 0)),
        EdgeFault::Twice(i, j) => answer_of(22, four(i, j, 0, 0)),
    }
}

// Converts a verdict on a straight-line drawing to a status and its numbers.
fn drawing_answer(verdict: Verdict) -> Answer
    ensures { result ≡ drawing_answer_of verdict }
{
    match verdict {
        Verdict::OutOfGrid(v) => answer_of(32, one(v)),
        Verdict::SamePlace(u, v) => answer_of(33, two(u, v)),
        Verdict::OnEdge(v, e) => answer_of(34, three(v, e.a, e.b)),
        Verdict::Cross(e, f) => answer_of(35, ends(e, f)),
        Verdict::Turned(v) => answer_of(36, one(v)),
        Verdict::Yes => answer_of(0, none()),
    }
}

// Converts a verdict on the outer face of a drawing to a status and its numbers.
fn outer_answer(verdict: OuterVerdict) -> Answer
    ensures { result ≡ outer_answer_of verdict }
{
    match verdict {
        OuterVerdict::Inside(v, u) => answer_of(37, two(v, u)),
        OuterVerdict::Yes => answer_of(0, none()),
    }
}

// Converts a verdict on bars to a status and its numbers.
fn bars_answer(verdict: BarVerdict) -> Answer
    ensures { result ≡ bars_answer_of verdict }
{
    match verdict {
        BarVerdict::BadShape => answer_of(48, none()),
        BarVerdict::BadHeight(v) => answer_of(49, one(v)),
        BarVerdict::BadBar(v) => answer_of(50, one(v)),
        BarVerdict::BadColumn(e) => answer_of(51, two(e.a, e.b)),
        BarVerdict::Through(e, v) => answer_of(52, three(e.a, e.b, v)),
        BarVerdict::Overlap(e, f) => answer_of(53, ends(e, f)),
        BarVerdict::Turned(v) => answer_of(54, one(v)),
        BarVerdict::Yes => answer_of(0, none()),
    }
}

// Converts a verdict on rectangles to a status and its numbers.
fn rects_answer(verdict: RectVerdict) -> Answer
    ensures { result ≡ rects_answer_of verdict }
{
    match verdict {
        RectVerdict::BadRect(v) => answer_of(64, one(v)),
        RectVerdict::Meet(u, v) => answer_of(65, two(u, v)),
        RectVerdict::Gap => answer_of(66, none()),
        RectVerdict::Contact(u, v) => answer_of(67, two(u, v)),
        RectVerdict::NoFrame => answer_of(68, none()),
        RectVerdict::Frame(v) => answer_of(69, one(v)),
        RectVerdict::Yes => answer_of(0, none()),
    }
}

// Converts the outcome of a call to a status and its numbers.
fn outcome_answer(outcome: Outcome) -> Answer
    ensures { result ≡ answer_of outcome }
{
    match outcome {
        Outcome::Served => answer_of(0, none()),
        Outcome::Failed(Failure::Refused(refusal)) => refusal_answer(refusal),
        Outcome::Failed(Failure::BadEdge(fault)) => edge_answer(fault),
        Outcome::Failed(Failure::NoMemory) => answer_of(16, none()),
        Outcome::Failed(Failure::BadArgument) => answer_of(17, none()),
        Outcome::Drawing(verdict) => drawing_answer(verdict),
        Outcome::Convex(ConvexVerdict::Bent(a, b, c)) => answer_of(40, three(a, b, c)),
        Outcome::Convex(ConvexVerdict::OuterBent) => answer_of(41, none()),
        Outcome::Convex(ConvexVerdict::Yes) => answer_of(0, none()),
        Outcome::Bars(verdict) => bars_answer(verdict),
        Outcome::Rects(verdict) => rects_answer(verdict),
        Outcome::Outer(verdict) => outer_answer(verdict),
        Outcome::NotPlanar(Kind::K5) => answer_of(80, none()),
        Outcome::NotPlanar(Kind::K33) => answer_of(81, none()),
    }
}

// Returns the outcome of `call`, or `Failed` with the reason if the call failed.
fn ended(call: Result<Outcome, Failure>) -> Outcome
    ensures { result ≡ outcome_of call }
{
    match call {
        Ok(outcome) => outcome,
        Err(failure) => Outcome::Failed(failure),
    }
}

/// Writes the numbers of the outcome of `call` to `found`, and returns its status.
pub(crate) fn report(call: Result<Outcome, Failure>, found: &mut Numbers) -> u8
    ensures status { result ≡ (answer_of (outcome_of call)).status }
    ensures numbers { found.new ≡ (answer_of (outcome_of call)).numbers }
{
    let Answer { status, numbers } = outcome_answer(ended(call));
    *found = numbers;
    status
}
