// The first words of lines, and the order in which lines come.
ghost use Rattle.std.specs.Prelude.{◌≡◌};
ghost use Rattle.syntax.specs.Words.{word_read, next_phase};

use crate::fault::Fault;

// The first word of a line.
#[derive(Clone, Copy, PartialEq, Eq, Debug)]
pub enum Word {
    Mesh,
    Rule,
    Feed,
    Split,
    Flag,
    Cluster,
    Pour,
    Audit,
}

// The word that a text spells.
impl TryFrom<&[u8]> for Word {
    type Error = Fault;

    ghost try_from_gives = { λ text result. result ≡ word_read text.now };

    #[tactic(auto, using(crate::proofs::Spellings::cluster))]
    fn try_from(text: &[u8]) -> Result<Word, Fault> {
        match text {
            b"mesh" => Ok(Word::Mesh),
            b"rule" => Ok(Word::Rule),
            b"feed" => Ok(Word::Feed),
            b"split" => Ok(Word::Split),
            b"flag" => Ok(Word::Flag),
            b"cluster" => Ok(Word::Cluster),
            b"pour" => Ok(Word::Pour),
            b"audit" => Ok(Word::Audit),
            _ => Err(Fault::Word),
        }
    }
}

// Which line is due: the six lines of the head come once each and in this order, then any number of lines of the body.
#[derive(Clone, Copy, PartialEq, Eq, Debug)]
pub enum Phase {
    Mesh,
    Rule,
    Feed,
    Split,
    Flag,
    Cluster,
    Body,
}

// The phase after a line that begins with this word, or `None` if the word is out of order. Both are matched together, a form that
// the project fixes.
pub fn due(phase: Phase, word: Word) -> Option<Phase>
    ensures { result ≡ next_phase phase word }
{
    match (phase, word) {
        (Phase::Mesh, Word::Mesh) => Some(Phase::Rule),
        (Phase::Rule, Word::Rule) => Some(Phase::Feed),
        (Phase::Feed, Word::Feed) => Some(Phase::Split),
        (Phase::Split, Word::Split) => Some(Phase::Flag),
        (Phase::Flag, Word::Flag) => Some(Phase::Cluster),
        (Phase::Cluster, Word::Cluster) => Some(Phase::Body),
        (Phase::Body, Word::Pour | Word::Audit) => Some(Phase::Body),
        _ => None,
    }
}
