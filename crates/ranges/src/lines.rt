ghost use Rattle.std.specs.Prelude.{cond, ◌≡◌};
ghost use Rattle.remy.specs.State.{has_back};
ghost use Rattle.ranges.specs.Frame.{values_at};

use link::LineValues;

// Whether there is a return line. No bare `is_some` at its places: `has_back` of remy/specs/State is cited
// by name.
pub fn has_back(back: Option<LineValues>) -> bool
    ensures { result ≡ has_back back }
{
    back.is_some()
}

// How many lines there are: two with a return line.
pub fn line_count(back: Option<LineValues>) -> usize
    ensures { result ≡ cond (has_back back) 2 1 }
{
    if has_back(back) { 2 } else { 1 }
}

// The values of line l: the first line's, and for line 1 the return line's. They are the first line's
// where there is no line l.
pub fn values_of(first: LineValues, back: Option<LineValues>, l: usize) -> LineValues
    ensures { result ≡ values_at first back l }
{
    if l == 0 { first } else { back.unwrap_or(first) }
}
