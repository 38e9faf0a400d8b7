// The rows to be: the start row, and the rows that rows lead to, as marks in the scratch.
ghost use Rattle.std.specs.Prelude.{◌≡◌, [], length};
ghost use Rattle.model.specs.Basics.{zeros};
ghost use Rattle.model.specs.Layout.{locations_in};
ghost use Rattle.model.specs.Construction.{pair_targets, row_targets};
ghost use Rattle.bits.specs.Bits.{codes_in, InSpan, MarksAre};
ghost use Rattle.construct.specs.Marks.{rule_by, start_codes_by, CanStart, Enough, NextMarked};

use crate::{Marked, Plan};
use bits::{Span, mark, span_of_none};
use model::MOST_LOCATIONS;
use numbers::has_bit;
use pairs::Input;

// Marks the start row: every initial location with bases 0.
pub(crate) fn mark_starts(starts: u32, weight: u32, marks: &mut [u32]) -> Span
    requires { CanStart marks.old starts weight }
    ensures { MarksAre (start_codes_by weight (locations_in starts)) marks.new result }
{
    let mut span = span_of_none(marks);
    for location in (0..MOST_LOCATIONS).rev() {
        if has_bit(starts as usize, location) {
            span = mark(marks, span, location * weight as usize);
        }
    }
    span
}

impl Plan<'_> {
    // Marks the targets of a code's pair by all edges that it allows. The edges go by their links, so there is no
    // range.
    fn mark_pair(
        self,
        input: Input,
        timer: bool,
        code: u32,
        marks: &mut [u32],
        before: Span,
    ) -> Span
        requires enough { Enough (rule_by self) marks.old }
        requires in_span { InSpan marks.old before }
        ensures { MarksAre
            (pair_targets (rule_by self.entry) input.symbol input.interval timer code
            (rule_by self.entry).edges (codes_in marks.old))
            marks.new result }
    {
        let left = self.departure(input, code);
        let mut span = before;
        let mut e = self.first_edge(left.pair.location, input.symbol);
        while e < self.rule.head.count {
            let edge = self.rule.edge(e);
            if left.allows(edge) {
                let to = left.target(edge, timer);
                span = mark(marks, span, to);
            }
            e = self.next_edge(e);
        }
        span
    }

    // Marks the targets of a row; no marks stand before.
    fn mark_row(self, input: Input, timer: bool, row: &[u32], marks: &mut [u32]) -> Span
        requires enough { Enough (rule_by self) marks.old }
        requires marks_value { marks.old ≡ zeros (length marks.old) }
        ensures { MarksAre
            (row_targets (rule_by self.entry) input.symbol input.interval timer row.now [])
            marks.new result }
    {
        let mut span = span_of_none(marks);
        for code in row {
            span = self.mark_pair(input, timer, *code, marks, span);
        }
        span
    }

    // Marks the row that a row leads to, and says whether the timer is reset.
    pub(crate) fn mark_next(self, input: Input, row: &[u32], marks: &mut [u32]) -> Marked
        requires enough { Enough (rule_by self) marks.old }
        requires marks_value { marks.old ≡ zeros (length marks.old) }
        ensures { NextMarked (rule_by self.entry) input row.now marks.new result }
    {
        let timer = self.row_resets(input, row);
        let span = self.mark_row(input, timer, row, marks);
        Marked { timer, span }
    }
}
