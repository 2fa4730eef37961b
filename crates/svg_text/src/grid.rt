//! Where things stand.
ghost use Rattle.std.specs.Prelude.{◌≡◌, ◌+◌, ◌*◌, ◌≤◌, ◌<◌, ◌^◌};
ghost use Rattle.svg_text.specs.Grids.{bottom_of, cell_height, cell_width, distance, grid_by, half_height, half_width, long_side, right_of, short_of, x_of, y_of};

/// The most ranks of a wide grid.
const MOST_RANKS: usize = 12;
/// The most calls of a wide grid.
const MOST_CALLS: usize = 400;
/// How far in front of its mark an arrow ends.
const SHORT: u64 = 9;

/// How large the cells are.
#[derive(Clone, Copy)]
pub enum Grid {
    /// With labels.
    Wide,
    /// Without labels and choices.
    Dense,
}

impl Grid {
    /// The grid of so many ranks and calls.
    pub fn of(ranks: usize, calls: usize) -> Self
        ensures { result ≡ grid_by ranks calls }
    {
        if ranks > MOST_RANKS || calls > MOST_CALLS {
            return Grid::Dense;
        }
        Grid::Wide
    }

    fn cell_width(&self) -> u64
        ensures width { result ≡ cell_width self.now }
        ensures small { result ≤ 46 }
    {
        match self {
            Grid::Wide => 46,
            Grid::Dense => 16,
        }
    }

    fn half_width(&self) -> u64
        ensures width { result ≡ half_width self.now }
        ensures small { result ≤ 23 }
    {
        match self {
            Grid::Wide => 23,
            Grid::Dense => 8,
        }
    }

    fn cell_height(&self) -> u64
        ensures height { result ≡ cell_height self.now }
        ensures small { result ≤ 62 }
    {
        match self {
            Grid::Wide => 62,
            Grid::Dense => 22,
        }
    }

    fn half_height(&self) -> u64
        ensures height { result ≡ half_height self.now }
        ensures small { result ≤ 31 }
    {
        match self {
            Grid::Wide => 31,
            Grid::Dense => 11,
        }
    }

    /// The middle of a column.
    pub fn x(&self, column: u32) -> u64
        ensures x { result ≡ x_of self.now column }
        ensures from { 92 ≤ result }
        ensures small { result < 2 ^ 40 }
    {
        92 + self.half_width() + self.cell_width() * column as u64
    }

    /// The middle of a lane.
    pub fn y(&self, rank: u8) -> u64
        ensures y { result ≡ y_of self.now rank }
        ensures from { 60 ≤ result }
        ensures small { result < 2 ^ 40 }
    {
        60 + self.half_height() + self.cell_height() * rank as u64
    }

    /// The right end of the lanes.
    pub fn right(&self, columns: u64) -> u64
        requires { columns ≤ 2 ^ 32 }
        ensures right { result ≡ right_of self.now columns }
        ensures from { 108 ≤ result }
        ensures small { result < 2 ^ 40 }
    {
        108 + self.cell_width() * columns
    }

    /// Where so many lanes end below.
    pub fn bottom(&self, ranks: usize) -> u64
        requires { ranks < 2 ^ 32 }
        ensures bottom { result ≡ bottom_of self.now ranks }
        ensures small { result < 2 ^ 40 }
    {
        60 + self.cell_height() * ranks as u64
    }
}

/// How far apart two numbers are.
pub fn distance(a: u64, b: u64) -> u64
    ensures distance { result ≡ distance a b }
    ensures small { a < 2 ^ 40 → b < 2 ^ 40 → result < 2 ^ 40 }
{
    if a < b { b - a } else { a - b }
}

/// The longer side of a line, at least 1.
pub fn long_side(x1: u64, y1: u64, x2: u64, y2: u64) -> u64
    ensures side { result ≡ long_side x1 y1 x2 y2 }
    ensures some { 0 < result }
{
    distance(x1, x2).max(distance(y1, y2)).max(1)
}

/// Where a line from a to b ends, short of b along its longer side.
pub fn short_of(a: u64, b: u64, long: u64) -> u64
    requires from { a < 2 ^ 40 }
    requires to { b < 2 ^ 40 }
    requires long { 0 < long }
    ensures { result ≡ short_of a b long }
{
    if a <= b {
        return b.saturating_sub((b - a) * SHORT / long);
    }
    b + (a - b) * SHORT / long
}
