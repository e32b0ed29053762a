// The lookups of half of the tables: of those of channel streams, 0 to 11, or of those of stereo payloads, 12 to 21.
ghost use Rattle.std.specs.Prelude.{◌≡◌, ◌<◌, ◌≤◌, ℕ};
ghost use Rattle.tables.specs.InnerHalf.{lookups_for};

// The lookups of the tables from a number on up to another.
#[derive(Clone, Copy)]
pub struct Lookups<const FIRST: usize, const END: usize, const N: usize> {
    pub elements: [u16; N],
    ghost lent: { (t : ℕ) → FIRST ≤ t → t < END → elements ≡ lookups_for t },
    ghost known: { END ≤ 22 },
}
