// Words from a list.
ghost use Rattle.std.specs.Prelude.{◌≡◌, ◌++◌, ◌∷◌, [], ◌↔◌, OnOk, OnErr, IsErr, Some};
ghost use Rattle.pf_io.specs.Counts.{HasCause};
ghost use Rattle.pf_io.specs.Words.{TakesWord};
ghost use Rattle.pf_io.specs.Buffers.{ListWordsState, words_of};

use crate::counts::raise;
use crate::{Memory, Words, WordsFault};
use std::alloc::Global;
use std::marker::Model;

/// Words from a list, in its order: it tells the words left.
#[derive(Drop)]
pub struct ListWords {
    words: Vec<[u8; 16]>,
    place: usize,
    faults: u64,
}

impl Model for ListWords {
    ghost use Rattle.std.specs.Prelude.{◌≤◌, length, drop};
    ghost use Rattle.pf_io.specs.Buffers.{ListWordsState};

    ghost Value = { ListWordsState };

    ghost view = { λ w. record { faults = w.faults; left = drop w.place w.words.items } };

    ghost invariant = { λ w. w.place ≤ length w.words.items };
}

impl ListWords {
    /// No words.
    pub fn new(alloc: Global) -> Self
        ensures { result ≡ record { faults = 0; left = [] } }
    {
        ListWords {
            words: Vec::new(alloc),
            place: 0,
            faults: 0,
        }
    }

    /// Appends a word.
    pub fn push(&mut self, word: [u8; 16]) -> Result<(), Memory>
        ensures ok { OnOk result (self.new ≡ record self.old { left = self.old.left ++ word ∷ [] }) }
        ensures err { OnErr result (self.new ≡ self.old) }
    {
        self.words.push(word)?;
        Ok(())
    }
}

impl Words for ListWords {
    ghost state = { words_of };

    fn next16(&mut self) -> Result<[u8; 16], WordsFault>
        ensures cause { HasCause self.old.faults self.new.faults result }
        ensures left { TakesWord result (Some self.old.left) (Some self.new.left) }
        ensures ended { IsErr result ↔ (self.old.left ≡ []) }
    {
        if self.place < self.words.len() {
            let word = self.words[self.place];
            self.place += 1;
            Ok(word)
        } else {
            raise(&mut self.faults);
            Err(WordsFault)
        }
    }
}
