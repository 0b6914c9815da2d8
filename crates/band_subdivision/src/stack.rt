// A stack of bands that follow one another, of which one number each is kept.
ghost use Rattle.std.specs.Prelude.{◌≡◌, ◌+◌, ◌<◌, ◌≤◌, [], ◌∷◌, length, option_map};
ghost use Rattle.band_subdivision.specs.Stack.{split_top, top_of, below_top};

use std::marker::Model;

/// At most 32 bands, seen as a list from the top down.
#[derive(Drop)]
pub struct Stack {
    lo: u32,
    ends: [u32; 32],
    depth: usize,
}

impl Model for Stack {
    ghost use Rattle.std.specs.Prelude.{List, ◌≤◌};
    ghost use Rattle.band_subdivision.specs.Stack.{Band, bands_from};

    ghost Value = { List Band };

    ghost view = { λ s. bands_from s.lo s.ends s.depth };

    ghost invariant = { λ s. s.depth ≤ 32 };
}

impl Stack {
    pub fn new(lo: u32, hi: u32) -> Stack
        ensures { result ≡ record { lo = lo; hi = hi } ∷ [] }
    {
        let mut ends = [0; 32];
        ends[0] = hi;
        Stack { lo, ends, depth: 1 }
    }

    /// The ends of the top band.
    pub fn top(&self) -> Option<(u32, u32)>
        ensures { result ≡ option_map (λ b. (b.lo, b.hi)) (top_of self.now) }
    {
        if self.depth == 0 {
            return None;
        }
        Some((self.lo, self.ends[self.depth - 1]))
    }

    /// Takes the top band away.
    pub fn pop(&mut self)
        requires { 0 < length self.old }
        ensures { self.new ≡ below_top self.old }
    {
        self.depth -= 1;
        self.lo = self.ends[self.depth];
    }

    /// Puts the top band's halves in its place, the lower one on top.
    pub fn split(&mut self, middle: u32)
        requires some { 0 < length self.old }
        requires room { length self.old < 32 }
        ensures { self.new ≡ split_top self.old middle }
    {
        self.ends[self.depth] = middle;
        self.depth += 1;
    }
}
