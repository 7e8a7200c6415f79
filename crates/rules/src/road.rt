// Road: a cell on the path between two linked settlements.
ghost use Rattle.std.specs.Prelude.{◌≡◌, ◌<◌, length};
ghost use Rattle.std.specs.List.{list_any};
ghost use Rattle.rules.specs.Places.{places};
ghost use Rattle.rules.specs.Roads.{apart, centre, column, from_to, has_road, linked, nearer, on_path, road, road_fit, road_to, row, site};

use grid::rule::Rule;

// The square has 23 rows of 23 cells, and its centre is in row and column 11.
const SIDE: usize = 23;

const AREA: usize = SIDE * SIDE;

const MIDDLE: usize = 11;

// Linked settlements are at most so far apart.
const LONGEST_LINK: usize = 6;

#[derive(Clone, Copy, Debug)]
pub struct Road {}

// A place of the square: its number in reading order.
#[derive(Clone, Copy)]
struct Place {
    index: usize,
    ghost within: { index < 529 },
}

impl Place {
    fn at(index: usize) -> Self
        requires { index < 529 }
        ensures { result.index ≡ index }
    {
        Place { index }
    }

    fn row(self) -> usize
        ensures { result ≡ row self.index }
    {
        self.index / SIDE
    }

    fn column(self) -> usize
        ensures { result ≡ column self.index }
    {
        self.index % SIDE
    }

    fn distance(self, other: Self) -> usize
        ensures { result ≡ apart self.index other.index }
    {
        let rows = self.row().abs_diff(other.row());
        let columns = self.column().abs_diff(other.column());
        rows.max(columns)
    }
}

// Whether `c` lies from `a` to `b`, whichever is the greater.
fn is_between(a: usize, b: usize, c: usize) -> bool
    ensures { result ≡ from_to a b c }
{
    a <= c && c <= b || b <= c && c <= a
}

// Whether the centre lies on the path from `a` along its row to the column of `b`, and along that column to `b`.
fn has_centre(a: Place, b: Place) -> bool
    ensures { result ≡ on_path a.index b.index centre }
{
    a.row() == MIDDLE && is_between(a.column(), b.column(), MIDDLE)
        || b.column() == MIDDLE && is_between(a.row(), b.row(), MIDDLE)
}

// The heights of a square.
#[derive(Clone, Copy)]
struct Square<'a> {
    heights: &'a [u16],
    ghost whole: { length heights.now ≡ 529 },
}

impl Square<'_> {
    fn is_site(self, place: Place) -> bool
        ensures { result ≡ site self.entry.heights.now place.index }
    {
        self.heights[place.index] != 0
    }

    // Whether some settlement is nearer to both than they are to each other. Such a one lies in few rows.
    fn is_crowded(self, a: Place, b: Place) -> bool
        ensures { result ≡ list_any (nearer self.entry.heights.now a.index b.index) (places 529) }
    {
        let length = a.distance(b);
        let first = (b.row() + 1).saturating_sub(length) * SIDE;
        let end = ((a.row() + length) * SIDE).min(AREA);
        (first..end).map(Place::at).any(|c| {
            self.is_site(c) && c.distance(a) < length && c.distance(b) < length
        })
    }

    fn are_linked(self, a: Place, b: Place) -> bool
        ensures { result ≡ linked self.entry.heights.now a.index b.index }
    {
        a.index < b.index && a.distance(b) <= LONGEST_LINK && !self.is_crowded(a, b)
    }

    // Whether the centre lies on a path from `a`. Where it does, the other end is in its row or below, and not far.
    fn has_road_from(self, a: Place) -> bool
        ensures { result ≡ list_any (road_to self.entry.heights.now a.index) (places 529) }
    {
        (MIDDLE * SIDE..(MIDDLE + LONGEST_LINK + 1) * SIDE)
            .map(Place::at)
            .any(|b| self.is_site(b) && has_centre(a, b) && self.are_linked(a, b))
    }

    // A path that has the centre begins in its row or above, and not far.
    fn has_road(self) -> bool
        ensures { result ≡ has_road self.entry.heights.now }
    {
        ((MIDDLE - LONGEST_LINK) * SIDE..(MIDDLE + 1) * SIDE)
            .map(Place::at)
            .any(|a| self.is_site(a) && self.has_road_from(a))
    }
}

impl Rule for Road {
    ghost stencil = { λ _. road };

    ghost fit = { λ _. road_fit };

    fn radius(&self) -> u8 {
        11
    }

    fn answer(&self, square: &[u16]) -> u16 {
        u16::from(Square { heights: square }.has_road())
    }
}
