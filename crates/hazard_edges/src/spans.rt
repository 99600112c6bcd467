//! The span of what each node writes.
ghost use Rattle.std.specs.Prelude.{◌≡◌, ℕ, ◌<◌, IfOk, length, true};
ghost use Rattle.hazard_edges.specs.Spans.{covers, Cover, widened, span_of};

use logic_graph::{Touched, WordRange};
use std::alloc::{AllocError, Global};

/// For each node a range in which all ranges that it writes lie.
pub fn spans_of(alloc: Global, touched: &[Touched]) -> Result<Vec<WordRange>, AllocError>
    ensures { IfOk result (λ v. Cover touched.now v.items) }
{
    let mut spans = Vec::with_capacity(alloc, touched.len())?;
    for node in touched {
        spans.push(span(node.writes.as_slice()))?;
    }
    Ok(spans)
}

#[tactic(auto, using(crate::proofs::SpanLemmas::span_covers))]
fn span(ranges: &[WordRange]) -> WordRange
    ensures span { result ≡ span_of ranges.now }
    ensures covers { covers result ranges.now ≡ true }
{
    let mut span = WordRange {
        first: u32::MAX,
        end: 0,
    };
    for r in ranges {
        span = widened(span, *r);
    }
    span
}

fn widened(span: WordRange, r: WordRange) -> WordRange
    ensures { result ≡ widened span r }
{
    WordRange {
        first: span.first.min(r.first),
        end: span.end.max(r.end),
    }
}
