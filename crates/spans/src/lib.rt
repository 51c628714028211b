// The columns of a row where each of some edge functions is above 0: one span of consecutive columns.
#![tactic(auto)]

ghost use Rattle.std.specs.Prelude.{◌≡◌, true, ◌+◌, ◌/◌, ◌≤◌, pos, nat_abs, ◌<ℤ◌, ◌≤ℤ◌};
ghost use Rattle.geometry.specs.Raster.{FunctionBounded};
ghost use Rattle.spans.specs.Span.{Occupied, Shaped, number_at, Linear, Clipped, BesideLit, ClippedBut};
ghost use Rattle.spans.specs.Row.{FunctionRun, RowSpan};

use geometry::EdgeFunction;

// The columns first .. end − 1. A span with no column is written 0 and 0.
#[derive(Clone, Copy)]
pub struct Span {
    pub first: usize,
    pub end: usize,
}

// slope · i + start
fn number_at(slope: i64, start: i64, i: usize) -> i64
    requires { Linear slope start × (i ≤ 1024) }
    ensures { result ≡ number_at slope start i }
{
    slope * (i as i64) + start
}

// n / d + 1, rounded down
fn past_quotient(n: i64, d: i64) -> usize
    requires { (pos 0 ≤ℤ n) × (pos 0 <ℤ d) }
    ensures { result ≡ nat_abs n / nat_abs d + 1 }
{
    (n as usize) / (d as usize) + 1
}

// The span's columns i where slope · i + start is above 0. At the end where the number is least it says whether all are kept; only where it changes its sign
// on the span does that cost a division.
fn clip(span: Span, slope: i64, start: i64) -> Span
    requires { Occupied 1024 span × Linear slope start }
    ensures { Clipped slope start span result }
{
    let Span { first, end } = span;
    if slope < 0 {
        if 0 < number_at(slope, start, end - 1) {
            span
        } else if 0 < number_at(slope, start, first) {
            Span {
                first,
                end: past_quotient(start - 1, -slope),
            }
        } else {
            Span { first: 0, end: 0 }
        }
    } else if 0 < number_at(slope, start, first) {
        span
    } else if 0 < number_at(slope, start, end - 1) {
        Span {
            first: past_quotient(-start, slope),
            end,
        }
    } else {
        Span { first: 0, end: 0 }
    }
}

// The same of any span: an empty one stays as it is.
pub fn clip_any(span: Span, slope: i64, start: i64) -> Span
    requires { Shaped 1024 span × Linear slope start }
    ensures { Clipped slope start span result }
{
    if span.end <= span.first {
        span
    } else {
        clip(span, slope, start)
    }
}

// At the end where the number is least it is above 0, so it is on the whole span.
fn keeps_all(span: Span, slope: i64, start: i64) -> bool
    requires { Occupied 1024 span × Linear slope start }
    ensures { result ≡ true → Clipped slope start span span }
{
    let least = if slope < 0 { span.end - 1 } else { span.first };
    0 < number_at(slope, start, least)
}

// The span without those columns beside some lit ones where the number is not above 0, if the nearest of them tells it of all on its side, and without the lit ones: where
// the number changes its sign among these, that costs no division.
fn beside_lit(span: Span, lit: Span, slope: i64, start: i64) -> Span
    requires { Occupied 1024 span × Linear slope start }
    ensures { BesideLit lit slope start span result }
{
    if lit.first <= span.first || span.end <= lit.first {
        span
    } else if slope < 0 {
        if span.end <= lit.end || 0 < number_at(slope, start, lit.end) {
            span
        } else {
            Span {
                first: span.first,
                end: lit.first,
            }
        }
    } else if 0 < number_at(slope, start, lit.first - 1) {
        span
    } else {
        Span {
            first: lit.end,
            end: span.end,
        }
    }
}

// the span's columns where a function is above 0 in row j, but for lit ones
fn clip_function(span: Span, lit: Span, f: EdgeFunction, j: usize) -> Span
    requires { Occupied 1024 span × FunctionBounded f × (j ≤ 1024) }
    ensures { ClippedBut lit f.slope (number_at f.drop f.start j) span result }
{
    let start = number_at(f.drop, f.start, j);
    if keeps_all(span, f.slope, start) {
        return span;
    }
    let left = beside_lit(span, lit, f.slope, start);
    if left.end <= left.first {
        return left;
    }
    clip(left, f.slope, start)
}

// The columns of the span `within` where each of some functions is above 0 in row j. One product for each function gives its number at column 0. Of the columns of the
// span `lit` it may have any.
pub fn row_span(functions: &[EdgeFunction], j: usize, within: Span, lit: Span) -> Span
    requires { FunctionRun functions.now × (j ≤ 1024) × (within.end ≤ 1024) }
    ensures { RowSpan functions.now j within lit result }
{
    let mut span = within;
    for f in functions {
        if span.end <= span.first {
            return span;
        }
        span = clip_function(span, lit, *f, j);
    }
    span
}
