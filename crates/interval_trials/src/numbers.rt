// The numbers of a line, at most ten.
ghost use Rattle.std.specs.Prelude.{◌<◌};

use complex_interval::{Enclosure, Rect};
use exact_fraction::Fraction;

#[derive(Clone, Copy)]
pub struct Numbers {
    items: [i128; 10],
}

impl Numbers {
    // The numbers after the first word of a line: 0 for each that is missing or no number.
    pub fn of_line(line: &str) -> Numbers {
        let mut items = [0; 10];
        let mut place = 0;
        for word in line.split(' ').skip(1) {
            if place < 10 {
                items[place] = word.parse().unwrap_or(0);
                place += 1;
            }
        }
        Numbers { items }
    }

    pub fn at(&self, place: usize) -> i128 {
        self.items.get(place).copied().unwrap_or(0)
    }

    pub fn word(&self, place: usize) -> Option<i64> {
        i64::try_from(self.at(place)).ok()
    }

    pub fn small(&self, place: usize) -> Option<u32> {
        u32::try_from(self.at(place)).ok()
    }

    // The interval whose ends stand at a place and after it.
    pub fn interval<E: Enclosure>(&self, place: usize) -> Option<E>
        requires { place < 10 }
    {
        E::from_ends(self.word(place)?, self.word(place + 1)?)
    }

    pub fn rectangle<E: Enclosure>(&self, place: usize) -> Option<Rect<E>>
        requires { place < 8 }
    {
        Some(Rect {
            re: self.interval(place)?,
            im: self.interval(place + 2)?,
        })
    }

    pub fn fraction(&self, place: usize) -> Option<Fraction>
        requires { place < 10 }
    {
        Fraction::new(self.at(place), self.at(place + 1))
    }
}
