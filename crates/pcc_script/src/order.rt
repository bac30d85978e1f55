//! The order of lines, seen from the line before: two numbers and a count decide whether the next one may be there.
ghost use Rattle.std.specs.Prelude.{◌≡◌, ◌<◌};
ghost use Rattle.pcc_script.specs.Rows.{most};
ghost use Rattle.pcc_script.specs.Reading.{count_for, Gives, placed, seen_after, start};

use crate::fault::{ScriptKind, Stop};
use crate::word::Word;

/// What the order of the next line depends on.
#[derive(Clone, Copy)]
pub struct Seen {
    /// The place of the last line.
    place: u32,
    /// The least place of the next one.
    next: u32,
    /// How many lines are at `place`.
    count: u32,
}

impl Seen {
    /// Before the first line.
    pub fn start() -> Seen
        ensures { result ≡ start }
    {
        Seen {
            place: 0,
            next: 0,
            count: 0,
        }
    }

    /// How many lines are at the place of a word.
    fn count_for(&self, word: Word) -> u32
        ensures { result ≡ count_for self.now word }
    {
        if word.place() == self.place {
            self.count
        } else {
            0
        }
    }

    /// Whether a line of this word may be next.
    pub fn place_test(&self, word: Word) -> Result<(), Stop>
        ensures { Gives (λ _. word) result (placed self.now.next (count_for self.now word) word) }
    {
        if word.place() < self.next {
            return Err(Stop::Wrong(ScriptKind::Misplaced));
        }
        if self.count_for(word) >= word.most() {
            return Err(Stop::Wrong(ScriptKind::Many));
        }
        Ok(())
    }

    /// After a line of this word.
    pub fn after(&self, word: Word) -> Seen
        requires { count_for self.now word < most word }
        ensures { result ≡ seen_after self.now word }
    {
        let count = self.count_for(word);
        prove!(count < word.most());
        Seen {
            place: word.place(),
            next: word.behind(),
            count: count + 1,
        }
    }
}
