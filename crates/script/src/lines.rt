// The lines of a script, one after the other. A line is the text from its start on, so that a field that a
// line does not have is read from the next one.
ghost use Rattle.std.specs.Prelude.{◌≡◌, drop, length, position, MatchOption, ◌==◌};
ghost use Rattle.std.specs.Iterator.{at_most};
ghost use Rattle.script.specs.Script.{line_length, next_line};

use crate::Line;

// The lines that are left.
#[derive(Clone, Copy)]
pub struct Lines<'a>(&'a [u8]);

impl<'a> Lines<'a> {
    // The lines of a text.
    pub fn of(text: &'a [u8]) -> Self
        ensures { result.0.now ≡ text.now }
    {
        Lines(text)
    }
}

impl<'a> Iterator for Lines<'a> {
    type Item = Line<'a>;

    ghost next_gives = { λ s r t. MatchOption r ((length s.0.now ≡ 0) × (t ≡ s)) (λ x. (x.0.now ≡ s.0.now) × (t.0.now ≡ drop (next_line s.0.now 0) s.0.now)) };

    ghost remaining = { λ s. at_most (length s.0.now) };

    fn next(&mut self) -> Option<Line<'a>> {
        if self.0.is_empty() {
            return None;
        }
        let line = Line(self.0);
        let (_, rest) = self.0.split_at(line_length(self.0));
        self.0 = rest;
        Some(line)
    }
}

// The bytes of a text's first line, with its LF.
fn line_length(text: &[u8]) -> usize
    ensures { result ≡ line_length text.now }
{
    match first_lf(text) {
        Some(i) => i + 1,
        None => text.len(),
    }
}

fn first_lf(text: &[u8]) -> Option<usize>
    ensures { result ≡ position (λ b. b == 10) text.now }
{
    text.iter().position(|b| *b == b'\n')
}
