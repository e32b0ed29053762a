// The four kinds of indices, and what differs between them.
ghost use Rattle.std.specs.Prelude.{◌≡◌, ◌≤◌};
ghost use Rattle.stereo_indices.specs.Kind.{is_phase, by_mode, bands, by_kind, least, most, within};

use crate::Kind;

// Whether a kind is of phases.
pub fn is_phase(kind: Kind) -> bool
    ensures { result ≡ is_phase kind }
{
    matches!(kind, Kind::Ipd | Kind::Opd)
}

// One of three numbers, by the mode modulo 3.
fn by_mode(mode: u32, a: usize, b: usize, c: usize) -> usize
    ensures { result ≡ by_mode mode a b c }
{
    match mode % 3 {
        0 => a,
        1 => b,
        _ => c,
    }
}

// How many bands a kind has in a mode.
#[tactic(auto, unfolding(crate::specs::Kind::bands))]
pub fn bands(kind: Kind, mode: u32) -> usize
    ensures { (result ≡ bands kind mode) × (result ≤ 34) }
{
    if is_phase(kind) {
        return by_mode(mode, 5, 11, 17);
    }
    by_mode(mode, 10, 20, 34)
}

// One of four numbers, by kind and grid.
pub fn by_kind(kind: Kind, mode: u32, fine: i16, plain: i16, coherence: i16, phase: i16) -> i16
    ensures { result ≡ by_kind kind mode fine plain coherence phase }
{
    match kind {
        Kind::Iid if 3 <= mode => fine,
        Kind::Iid => plain,
        Kind::Icc => coherence,
        Kind::Ipd | Kind::Opd => phase,
    }
}

// The least index of a kind.
#[tactic(auto, unfolding(crate::specs::Kind::least))]
pub fn least(kind: Kind, mode: u32) -> i16
    ensures { result ≡ least kind mode }
{
    by_kind(kind, mode, -15, -7, 0, 0)
}

// The greatest index of a kind.
#[tactic(auto, unfolding(crate::specs::Kind::most))]
pub fn most(kind: Kind, mode: u32) -> i16
    ensures { result ≡ most kind mode }
{
    by_kind(kind, mode, 15, 7, 7, 7)
}

// Whether a number is not below one and not above another.
#[tactic(auto, unfolding(crate::specs::Kind::within))]
pub fn within(low: i16, high: i16, x: i16) -> bool
    ensures { result ≡ within low high x }
{
    low <= x && x <= high
}
