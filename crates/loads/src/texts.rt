// The texts of a list.
ghost use Rattle.std.specs.Prelude.{length};
ghost use Rattle.std.specs.Iterator.{at_most};

use script::Line;

// The bytes of a letter, a space, a field and LF.
const HEAD: usize = 19;

// What is left of the list.
#[derive(Clone, Copy)]
pub(crate) struct Texts<'a>(&'a [u8]);

impl<'a> Texts<'a> {
    // The texts after the head of a list.
    pub(crate) fn of(list: &'a [u8]) -> Self {
        Texts(list.get(HEAD..).unwrap_or(&[]))
    }
}

impl<'a> Iterator for Texts<'a> {
    type Item = &'a [u8];

    ghost remaining = { λ s. at_most (length s.0.now) };

    fn next(&mut self) -> Option<&'a [u8]> {
        let (head, rest) = self.0.split_at_checked(HEAD)?;
        let (text, left) = rest.split_at_checked(Line(head).number(0) as usize)?;
        self.0 = left;
        Some(text)
    }
}
