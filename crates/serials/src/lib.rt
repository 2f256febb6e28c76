// The serials of a roster, and the look-up of one.
#![tactic(auto)]

ghost use Rattle.std.specs.Prelude.{ℕ, ◌≡◌, ◌-◌, List, [], length, take, drop, get_or};
ghost use Rattle.serials.specs.Serials.{serials};
ghost use Rattle.serials.specs.LookUp.{look_up};

use std::marker::Model;

// Serials as they are lent: bytes and the place where each serial ends. The next begins one byte after it. Any bytes
// with any places are some serials. Contracts see the list of the serials. A serial is lent as long as the bytes are.
#[derive(Drop)]
pub struct Serials<'a, 'b> {
    pub chars: &'a [u8],
    pub ends: &'b [usize],
}

impl<'a, 'b> Model for Serials<'a, 'b> {
    ghost Value = { List (List ℕ) };

    ghost view = { λ s. serials s.chars.now s.ends.now };
}

impl<'a> Serials<'a, '_> {
    pub fn len(&self) -> usize
        ensures { result ≡ length self.now }
    {
        self.ends.len()
    }

    // The lowest slot whose serial has the asked length and the same byte at every place.
    pub fn find(&self, asked: &[u8]) -> Option<usize>
        ensures { result ≡ look_up self.now asked.now }
    {
        (0..self.len()).find(|slot| self.get(*slot) == asked)
    }

    // The serials of the first slots, so many as are asked for or all.
    pub fn first(&self, count: usize) -> Self
        ensures { result ≡ take count self.now }
    {
        Serials {
            chars: self.chars,
            ends: &self.ends[..count.min(self.ends.len())],
        }
    }

    // The serial of a slot; past the last slot, none.
    pub fn get(&self, slot: usize) -> &'a [u8]
        ensures { result.now ≡ get_or self.now slot [] }
    {
        if self.ends.len() <= slot {
            return &[];
        }
        if slot == 0 {
            return part(self.chars, 0, self.ends[slot]);
        }
        let before = self.ends[slot - 1].min(self.chars.len());
        part(self.chars, before + 1, self.ends[slot])
    }
}

// The bytes from one place to another, as far as there are such.
pub fn part(chars: &[u8], start: usize, end: usize) -> &[u8]
    ensures { result.now ≡ take (end - start) (drop start chars.now) }
{
    let to = end.min(chars.len());
    &chars[start.min(to)..to]
}
