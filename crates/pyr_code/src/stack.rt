ghost use Rattle.std.specs.Prelude.{◌≡◌, [], ◌∷◌, ◌<◌, ◌≤◌, length};

use std::marker::Model;

/// The most words that the stack of verified code holds.
pub const MAX_HEIGHT: u32 = 64;

// At most `MAX_HEIGHT` words in place. Contracts see their list, the topmost first.
#[derive(Drop)]
pub struct Stack {
    words: [u64; MAX_HEIGHT as usize],
    height: usize,
}

impl Model for Stack {
    ghost use Rattle.std.specs.Prelude.{ℕ, ◌≤◌, List};
    ghost use Rattle.pyr_code.specs.Stack.{stacked};
    ghost use Rattle.pyr_code.specs.declared.stack.TheConstants.{MAX_HEIGHT};

    ghost Value = { List ℕ };

    ghost view = { λ s. stacked s.words s.height };

    ghost invariant = { λ s. s.height ≤ MAX_HEIGHT };
}

impl Stack {
    pub fn new() -> Stack
        ensures { result ≡ [] }
    {
        Stack {
            words: [0; MAX_HEIGHT as usize],
            height: 0,
        }
    }

    pub fn push(&mut self, word: u64)
        requires { length self.old < MAX_HEIGHT }
        ensures { self.new ≡ word ∷ self.old }
    {
        self.words[self.height] = word;
        self.height += 1;
    }

    pub fn pop(&mut self) -> u64
        requires { 0 < length self.old }
        ensures words { self.old ≡ result ∷ self.new }
        ensures few { length self.old ≤ MAX_HEIGHT }
    {
        self.height -= 1;
        self.words[self.height]
    }
}
