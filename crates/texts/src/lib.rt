// Texts put into a lent buffer one after the other, each from the place where the last one ended. What does not fit is left out.
#![tactic(auto)]

ghost use Rattle.std.specs.Prelude.{[], ◌∷◌, take};
ghost use Rattle.tasks.specs.Sets.{characters};
ghost use Rattle.texts.specs.Puts.{Adds};

use tasks::sets;

// A lent buffer, and the place from which the next text goes into it.
#[derive(Drop)]
pub struct Page<'a> {
    pub buf: &'a mut [u8],
    pub at: usize,
}

impl<'a> Page<'a> {
    // One byte.
    pub fn put(&mut self, b: u8)
        ensures { Adds self.old self.new (b ∷ []) }
    {
        if self.at < self.buf.len() {
            self.buf[self.at] = b;
            self.at += 1;
        }
    }

    // A word.
    pub fn put_word(&mut self, word: &[u8])
        ensures { Adds self.old self.new word.now }
    {
        for b in word {
            self.put(*b);
        }
    }

    // The characters of a set's name.
    pub fn put_name(&mut self, name: [u8; 16])
        ensures { Adds self.old self.new (take (characters name) name) }
    {
        let n = sets::name_length(name);
        self.put_word(&name[..n]);
    }
}
