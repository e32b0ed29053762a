// The header, and what it puts in force.
ghost use Rattle.std.specs.Prelude.{◌≡◌};
ghost use Rattle.bits.specs.InnerAnswers.{answer_of, reads};
ghost use Rattle.stereo.specs.Header.{no_header, mode, switch, header_fields, header, flag_after, mode_after, setup_after};

use crate::{Header, Setup, Switch};
use bits::fields::at_most;
use bits::{Answer, Bits};

// The fields of no header.
#[tactic(auto, unfolding(crate::specs::Header::no_header))]
pub fn no_header() -> Header
    ensures { result ≡ no_header }
{
    Header {
        there: 0,
        iid: 0,
        iidmode: 0,
        icc: 0,
        iccmode: 0,
        ext: 0,
    }
}

// A mode after its enable bit; 6 and 7 are reserved.
#[tactic(auto, unfolding(crate::specs::Header::mode))]
fn read_mode(s: &Bits, at: usize, on: u32) -> Answer<u32>
    ensures { answer_of result ≡ reads (mode on) s.now at }
{
    if on != 1 {
        return Ok((0, at));
    }
    at_most(s.field(at, 3), 5, 13, at)
}

// An enable bit and its mode.
#[tactic(auto, unfolding(crate::specs::Header::switch))]
fn read_switch(s: &Bits, at: usize) -> Answer<Switch>
    ensures { answer_of result ≡ reads switch s.now at }
{
    let (on, after_on) = s.field(at, 1)?;
    let (mode, next) = read_mode(s, after_on, on)?;
    Ok((Switch { on, mode }, next))
}

// The header's fields, after its flag.
#[tactic(auto, unfolding(crate::specs::Header::header_fields))]
fn read_header_fields(s: &Bits, at: usize) -> Answer<Header>
    ensures { answer_of result ≡ reads header_fields s.now at }
{
    let (iid, after_iid) = read_switch(s, at)?;
    let (icc, after_icc) = read_switch(s, after_iid)?;
    let (ext, next) = s.field(after_icc, 1)?;
    let header = Header {
        there: 1,
        iid: iid.on,
        iidmode: iid.mode,
        icc: icc.on,
        iccmode: icc.mode,
        ext,
    };
    Ok((header, next))
}

// The header, or its flag at 0.
#[tactic(auto, unfolding(crate::specs::Header::header))]
pub fn read_header(s: &Bits, at: usize) -> Answer<Header>
    ensures { answer_of result ≡ reads header s.now at }
{
    let (there, next) = s.field(at, 1)?;
    if there != 1 {
        return Ok((no_header(), next));
    }
    read_header_fields(s, next)
}

// A flag after a header.
fn flag_after(there: u32, new: u32, old: bool) -> bool
    ensures { result ≡ flag_after there new old }
{
    if there == 1 {
        return new == 1;
    }
    old
}

// A mode after a header.
fn mode_after(on: u32, new: u32, old: u32) -> u32
    ensures { result ≡ mode_after on new old }
{
    if on == 1 {
        return new;
    }
    old
}

// What is in force after a header.
#[tactic(auto, unfolding(crate::specs::Header::setup_after))]
pub fn setup_after(setup: Setup, header: Header) -> Setup
    ensures { result ≡ setup_after setup header }
{
    Setup {
        iid: flag_after(header.there, header.iid, setup.iid),
        icc: flag_after(header.there, header.icc, setup.icc),
        ext: flag_after(header.there, header.ext, setup.ext),
        iidmode: mode_after(header.iid, header.iidmode, setup.iidmode),
        iccmode: mode_after(header.icc, header.iccmode, setup.iccmode),
    }
}
