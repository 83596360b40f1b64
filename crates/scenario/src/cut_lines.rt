// The lines of a text, one after another.
ghost use Rattle.std.specs.Prelude.{length};

use text::cut;

// The lines of a text that are still to come, each ended by a line feed. An iterator: none is compared.
#[derive(Drop)]
pub(crate) struct Lines<'a> {
    pub(crate) rest: &'a [u8],
}

impl<'a> Iterator for Lines<'a> {
    type Item = &'a [u8];

    ghost use Rattle.std.specs.Iterator.{YieldsFirstBy, at_most};
    ghost use Rattle.scenario.specs.Left.{lines_left};

    ghost next_gives = { YieldsFirstBy (λ line. line.now) lines_left };

    ghost remaining = { λ s. at_most (length s.rest.now) };

    #[tactic(auto, using(crate::proofs::Runs::lines_none, crate::proofs::Runs::lines_some, text::proofs::Cuts::length_cut))]
    fn next(&mut self) -> Option<&'a [u8]> {
        let (line, rest) = cut(self.rest, b'\n')?;
        self.rest = rest;
        Some(line)
    }
}
