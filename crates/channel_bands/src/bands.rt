// The bands of each sampling index. Whoever reads lines makes the edges once, and lends the part of its index and windows.
ghost use Rattle.std.specs.Prelude.{◌≡◌, ◌-◌, ◌≤◌, take, drop};
ghost use Rattle.channel_bands.specs.Bands.{bands, band_count};
ghost use Rattle.channel_bands.specs.InnerBands.{all_edges};

// Indices 3 and 4, long; 3 and 4, short; 6 and 7, long; 6 and 7, short.
const EDGES: [usize; 129] = [
    0, 4, 8, 12, 16, 20, 24, 28, 32, 36, 40, 48, 56, 64, 72, 80, 88, 96, 108, 120, 132, 144, 160,
    176, 196, 216, 240, 264, 292, 320, 352, 384, 416, 448, 480, 512, 544, 576, 608, 640, 672, 704,
    736, 768, 800, 832, 864, 896, 928, 1024, 0, 4, 8, 12, 16, 20, 28, 36, 44, 56, 68, 80, 96, 112,
    128, 0, 4, 8, 12, 16, 20, 24, 28, 32, 36, 40, 44, 52, 60, 68, 76, 84, 92, 100, 108, 116, 124,
    136, 148, 160, 172, 188, 204, 220, 240, 260, 284, 308, 336, 364, 396, 432, 468, 508, 552, 600,
    652, 704, 768, 832, 896, 960, 1024, 0, 4, 8, 12, 16, 20, 24, 28, 36, 44, 52, 64, 76, 92, 108,
    128,
];

// Where the bands of an index stand in the edges.
#[derive(Clone, Copy)]
pub struct Part {
    pub first: usize,
    pub last: usize,
}

// The edges of all bands.
pub fn edges() -> [usize; 129]
    ensures { result ≡ all_edges }
{
    EDGES
}

// The part of the edges that an index has for long or short windows.
pub fn part_of(index: u8, short: bool) -> Part
    ensures { (take (result.last - result.first) (drop result.first all_edges) ≡ bands index short) × (result.first ≤ result.last)
        × (result.last ≤ 129) }
{
    if short {
        if index <= 4 {
            return Part {
                first: 50,
                last: 65,
            };
        }
        return Part {
            first: 113,
            last: 129,
        };
    }
    if index <= 4 {
        return Part { first: 0, last: 50 };
    }
    Part {
        first: 65,
        last: 113,
    }
}

// How many bands an index has for long or short windows.
pub fn band_count(index: u8, short: bool) -> u32
    ensures { result ≡ band_count index short }
{
    if short {
        if index <= 4 {
            return 14;
        }
        return 15;
    }
    if index <= 4 {
        return 49;
    }
    47
}
