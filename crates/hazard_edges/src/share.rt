//! Whether two nodes share a word that one of them writes.
ghost use Rattle.std.specs.Prelude.{◌≡◌, ◌<◌, length, true};
ghost use Rattle.std.specs.List.{list_any};
ghost use Rattle.logic_graph.specs.Reading.{meets, meet_somewhere};
ghost use Rattle.hazard_edges.specs.Hazards.{share, nodes_share};
ghost use Rattle.hazard_edges.specs.Spans.{meets_some, covers, Cover};

use logic_graph::{Touched, WordRange};

/// Whether two of these nodes share a word that one of them writes.
pub fn share_at(touched: &[Touched], spans: &[WordRange], i: usize, j: usize) -> bool
    requires first { i < length touched.now }
    requires second { j < length touched.now }
    requires spans { Cover touched.now spans.now }
    ensures { result ≡ nodes_share touched.now i j }
{
    share(&touched[i], &touched[j], spans[i], spans[j])
}

// By the spans of what they write.
#[tactic(auto, using(crate::proofs::SpanLemmas::turned))]
fn share(a: &Touched, b: &Touched, span_a: WordRange, span_b: WordRange) -> bool
    requires first { covers span_a a.now.writes ≡ true }
    requires second { covers span_b b.now.writes ≡ true }
    ensures { result ≡ share a.now b.now }
{
    let writes = a.writes.as_slice();
    meet(span_a, writes, b.reads.as_slice())
        || meet(span_b, b.writes.as_slice(), a.reads.as_slice())
        || meet(span_a, writes, b.writes.as_slice())
}

// Whether some of these ranges, which lie within a span, meet some of those.
#[tactic(auto, using(crate::proofs::SpanLemmas::some_turned))]
fn meet(span: WordRange, some: &[WordRange], others: &[WordRange]) -> bool
    requires { covers span some.now ≡ true }
    ensures { result ≡ meet_somewhere some.now others.now }
{
    any_meets(span, some, others)
}

fn any_meets(span: WordRange, some: &[WordRange], others: &[WordRange]) -> bool
    requires { covers span some.now ≡ true }
    ensures { result ≡ list_any (meets_some some.now) others.now }
{
    others.iter().any(|r| meets_within(span, some, *r))
}

#[tactic(auto, using(crate::proofs::SpanLemmas::none_outside))]
fn meets_within(span: WordRange, some: &[WordRange], r: WordRange) -> bool
    requires { covers span some.now ≡ true }
    ensures { result ≡ meets_some some.now r }
{
    if !meets(span, r) {
        return false;
    }
    some.iter().any(|s| meets(*s, r))
}

fn meets(r: WordRange, s: WordRange) -> bool
    ensures { result ≡ meets r s }
{
    r.first.max(s.first) < r.end.min(s.end)
}
