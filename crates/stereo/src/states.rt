// The stereo state: fresh, sound, out of step.
ghost use Rattle.std.specs.Prelude.{◌≡◌, not, ◌||◌};
ghost use Rattle.stereo.specs.State.{is_sent, sound_setup, lost, FreshPromise, SoundPromise};

use crate::{Setup, State};
use stereo_indices::{Kind, records};

// The state before any payload.
#[tactic(auto, unfolding(crate::specs::State::fresh, crate::specs::State::fresh_setup))]
pub fn fresh() -> State
    ensures { FreshPromise result }
{
    let setup = Setup {
        iid: false,
        icc: false,
        ext: false,
        iidmode: 7,
        iccmode: 7,
    };
    let none = records::none();
    State {
        setup,
        iid: none,
        icc: none,
        ipd: none,
        opd: none,
        instep: true,
    }
}

// Whether a mode was sent for a kind, where it is enabled.
fn has_mode(on: bool, mode: u32) -> bool
    ensures { result ≡ not on || is_sent mode }
{
    !on || mode != 7
}

// Whether a set-up is sound.
#[tactic(auto, unfolding(crate::specs::State::sound_setup))]
fn is_sound_setup(setup: Setup) -> bool
    ensures { result ≡ sound_setup setup }
{
    records::is_mode(setup.iidmode)
        && records::is_mode(setup.iccmode)
        && has_mode(setup.iid, setup.iidmode)
        && has_mode(setup.icc, setup.iccmode)
}

// Whether a state is sound.
#[tactic(auto, unfolding(crate::specs::State::sound))]
pub fn is_sound(state: State) -> bool
    ensures { SoundPromise state result }
{
    is_sound_setup(state.setup)
        && records::is_sound(Kind::Iid, state.iid)
        && records::is_sound(Kind::Icc, state.icc)
        && records::is_sound(Kind::Ipd, state.ipd)
        && records::is_sound(Kind::Opd, state.opd)
}

// A state out of step, and nothing else touched.
pub fn lost(state: State) -> State
    ensures { result ≡ lost state }
{
    State {
        instep: false,
        ..state
    }
}
