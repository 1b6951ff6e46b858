// The plain climber: from part to entry, one step after the other.

ghost use Rattle.std.specs.Iterator.{at_most};

// A sheet: its entries are the first n of `cells`.
#[derive(Clone, Copy)]
pub struct Sheet<'a> {
    pub cells: &'a [u16],
    pub n: usize,
}

impl<'a> Sheet<'a> {
    // The entry of a part; 0 past the end.
    pub fn parent(self, v: usize) -> usize {
        self.cells.get(v).map_or(0, |parent| usize::from(*parent))
    }

    // The lowest part from `from` on that names itself.
    pub fn root(self, from: usize) -> Option<usize> {
        (from..self.n).find(|v| self.parent(*v) == *v)
    }

    // The climb from a part: itself, its entry, and so on to a part that names itself, but no more than n parts.
    pub fn climb(self, v: usize) -> Climb<'a> {
        Climb {
            sheet: self,
            at: v,
            left: self.n,
        }
    }

    // The part that many steps up, staying at a part that names itself.
    pub fn up(self, v: usize, steps: usize) -> usize {
        self.climb(v)
            .take(steps.saturating_add(1))
            .last()
            .unwrap_or(v)
    }

    // The steps to a part that names itself.
    pub fn level(self, v: usize) -> usize {
        self.climb(v).count().saturating_sub(1)
    }

    // The carrier of two parts: the deeper one climbs to the level of the other, and then both climb until they meet.
    pub fn carrier(self, x: usize, y: usize) -> usize {
        let a = self.level(x);
        let b = self.level(y);
        let u = self.up(x, a.saturating_sub(b));
        let v = self.up(y, b.saturating_sub(a));
        let mut both = self.climb(u).zip(self.climb(v));
        both.find(|(u, v)| *u == *v).map_or(u, |(u, _)| u)
    }

    // The branch of a carrier c towards x: where a climb from x stands when its next step is to c, or n if that is not met; where x is c, it is c.
    pub fn branch(self, c: usize, x: usize) -> usize {
        if x == c {
            return c;
        }
        self.climb(x)
            .find(|v| self.parent(*v) == c)
            .unwrap_or(self.n)
    }

    // The carrier of a list: that of each part with the carrier of those before it.
    pub fn carrier_of(self, list: &[u16]) -> usize {
        let mut parts = list.iter().map(|v| usize::from(*v));
        let first = parts.next().unwrap_or(0);
        parts.fold(first, |carrier, v| self.carrier(carrier, v))
    }
}

// A climb, with the part that it comes to next, if `left` says that there is one.
#[derive(Clone, Copy)]
pub struct Climb<'a> {
    sheet: Sheet<'a>,
    at: usize,
    left: usize,
}

impl Iterator for Climb<'_> {
    type Item = usize;

    ghost remaining = { λ s. at_most s.left };

    fn next(&mut self) -> Option<usize> {
        if self.left == 0 {
            return None;
        }
        let at = self.at;
        let parent = self.sheet.parent(at);
        self.left = if parent == at { 0 } else { self.left - 1 };
        self.at = parent;
        Some(at)
    }
}
