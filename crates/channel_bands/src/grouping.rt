// Groups of windows.
ghost use Rattle.std.specs.Prelude.{◌≡◌, ◌∷◌, ◌+◌, ◌-◌, ◌<◌, ◌≤◌, length};
ghost use Rattle.channel_bands.specs.Grouping.{groups_after, groups_of, in_eight};

// How many groups there are, and the windows of each, 0 past the last: eight places, as the answer for C has them.
#[derive(Clone, Copy)]
pub struct Groups {
    pub count: usize,
    pub windows: [u8; 8],
}

// The windows of the group that starts at a window, of eight.
pub fn group_length(grouping: u8, from: usize) -> usize
    requires { from < 8 }
    ensures { (groups_after (8 - from) grouping ≡ result ∷ groups_after (8 - (from + result)) grouping) × (1 ≤ result)
        × (from + result ≤ 8) }
{
    for n in 1..8 - from {
        if (grouping >> (7 - (from + n))) % 2 != 1 {
            return n;
        }
    }
    8 - from
}

// The groups of eight short windows, or of one long one.
pub fn groups_of(short: bool, grouping: u8) -> Groups
    ensures { (result.count ≡ length (groups_of short grouping))
        × (result.windows ≡ in_eight (groups_of short grouping))
        × (1 ≤ result.count)
        × (result.count ≤ 8) }
{
    let mut windows = [0u8; 8];
    if !short {
        windows[0] = 1;
        return Groups { count: 1, windows };
    }
    let mut count = 0;
    let mut from = 0;
    // Each turn steps by the windows of its group.
    while from < 8 {
        let n = group_length(grouping, from);
        windows[count] = n as u8;
        count += 1;
        from += n;
    }
    Groups { count, windows }
}
