ghost use Rattle.std.specs.Prelude.{◌≡◌, alloc_error};
ghost use Rattle.figures.specs.Tallies.{first_words, Told};
ghost use Rattle.figures.specs.declared.tally.Halt.TheVariants.{Memory};

use std::alloc::{AllocError, AllocFailed, Global};
use std::collections::{BTreeMap, VecDeque};

/// Why lines are held against each other no further.
#[derive(Drop)]
pub(crate) enum Halt {
    /// An answer is not the expected one.
    Difference {
        expected: Vec<u8>,
        answered: Vec<u8>,
    },
    Memory(AllocError),
}

impl From<AllocError> for Halt {
    ghost from_gives = { λ x e. e ≡ Memory x };

    fn from(error: AllocError) -> Halt {
        Halt::Memory(error)
    }
}

impl<T: Drop> From<AllocFailed<T>> for Halt {
    ghost from_gives = { λ _ e. e ≡ Memory alloc_error };

    fn from(_failed: AllocFailed<T>) -> Halt {
        Halt::Memory(AllocError)
    }
}

/// The lines expected and the lines answered, held against each other in their order as they come, and how many answers
/// there were of each kind.
#[derive(Drop)]
pub(crate) struct Tally {
    heap: Global,
    /// Lines that wait for their counterpart: never some on both sides.
    expected: VecDeque<Vec<u8>>,
    answered: VecDeque<Vec<u8>>,
    pub(crate) counts: BTreeMap<Vec<u8>, u64>,
}

impl Tally {
    pub(crate) fn new(heap: Global) -> Tally {
        Tally {
            heap,
            expected: VecDeque::new(heap),
            answered: VecDeque::new(heap),
            counts: BTreeMap::new(heap),
        }
    }

    // `expect` and `answer` are not one function: it would match on the side, for either queue and for the order of the
    // two lines in `settle`.
    pub(crate) fn expect(&mut self, line: &[u8]) -> Result<(), Halt> {
        let expected = line.to_vec(self.heap)?;
        match self.answered.pop_front() {
            Some(answered) => self.settle(expected, answered),
            None => Ok(self.expected.push_back(expected)?),
        }
    }

    pub(crate) fn answer(&mut self, line: &[u8]) -> Result<(), Halt> {
        let answered = line.to_vec(self.heap)?;
        match self.expected.pop_front() {
            Some(expected) => self.settle(expected, answered),
            None => Ok(self.answered.push_back(answered)?),
        }
    }

    /// Counts an answer that is the expected one.
    fn settle(&mut self, expected: Vec<u8>, answered: Vec<u8>) -> Result<(), Halt>
        ensures { Told expected.items answered.items result }
    {
        if expected != answered {
            return Err(Halt::Difference { expected, answered });
        }
        Ok(self.count(answered.as_slice())?)
    }

    /// Counts an answer under its kind; lines that begin with a blank go with the answer above them.
    fn count(&mut self, answer: &[u8]) -> Result<(), AllocError> {
        let kind = kind_of(answer);
        if !kind.is_empty() {
            let count = self.counts.entry(kind.to_vec(self.heap)?)?.or_insert(0);
            *count = count.saturating_add(1);
        }
        Ok(())
    }

    /// Refuses what is left on one side, where the other has ended.
    pub(crate) fn end(&mut self) -> Result<(), Halt> {
        match (self.expected.pop_front(), self.answered.pop_front()) {
            (None, None) => Ok(()),
            (expected, answered) => Err(Halt::Difference {
                expected: expected.unwrap_or(Vec::new(self.heap)),
                answered: answered.unwrap_or(Vec::new(self.heap)),
            }),
        }
    }
}

/// The kind of an answer: its first word, and of a refusal also its number and name; nothing for a line that begins with a
/// blank.
fn kind_of(line: &[u8]) -> &[u8] {
    if line.starts_with(b"refused ") {
        return words(line, 3);
    }
    words(line, 1)
}

/// The first words of a line, which single blanks part.
fn words(line: &[u8], count: usize) -> &[u8]
    ensures { result.now ≡ first_words count line.now }
{
    let mut blanks = line.iter().enumerate().filter(|(_, byte)| **byte == b' ');
    match blanks.nth(count.saturating_sub(1)) {
        Some((end, _)) => &line[..end],
        None => line,
    }
}
