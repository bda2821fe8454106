// The checks of spans.
ghost use Rattle.std.specs.Prelude.{◌≡◌, ◌^◌, ◌≤◌};
ghost use Rattle.refusal.specs.Judged.{judged};
ghost use Rattle.grant.specs.Rules.{bound_rules, span_rules};

use cover::{Height, Span};
use refusal::Refusal;

// Whether a span names keys of the tree and no others.
pub(crate) fn check_span(height: Height, span: Span) -> Result<(), Refusal>
    ensures { result ≡ judged (bound_rules (2 ^ height.levels) span) tt }
{
    if span.to <= span.from {
        return Err(Refusal::EmptySpan);
    }
    if span.to > height.key_count() {
        return Err(Refusal::SpanPastEnd);
    }
    Ok(())
}

// Span by span, the first fault.
pub(crate) fn check_spans(height: Height, spans: &[Span]) -> Result<(), Refusal>
    ensures { result ≡ judged (span_rules 0 (2 ^ height.levels) spans.now) tt }
{
    let mut from = 0;
    for span in spans {
        check_span(height, *span)?;
        if span.from < from {
            return Err(Refusal::SpanNotAbove);
        }
        from = span.to + 1;
    }
    Ok(())
}
