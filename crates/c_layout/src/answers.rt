// A payload's contents and the bits that it used as bytes.
ghost use Rattle.std.specs.Prelude.{◌≡◌, [], ◌∷◌, ◌+◌, ◌≤◌, length, get_or};
ghost use Rattle.bits.specs.Bytes.{byte_of, over};
ghost use Rattle.c_layout.specs.ContentsBytes.{header_bytes, frame_bytes, answer_head, envelope_bytes, envelopes_bytes, answer_bytes};
ghost use Rattle.c_layout.specs.ContentsBytes.{row_at, rows_at, phases_at, all_phases_at, header_at, frame_at, extension_at, contents_at};

use crate::indices;
use bits::bytes;
use stereo::{Body, Contents, Extension, Frame, Header, Part, Phases};
use stereo_indices::Row;

// The row at a place: a number and 34 indices.
pub fn row_at(s: &[u8], at: usize) -> Row
    requires { at + 35 ≤ length s.now }
    ensures { result ≡ row_at s.now at }
{
    Row {
        time: bytes::wide(s[at]),
        indices: indices::indices_at(s, at + 1),
    }
}

// A kind's rows in the four envelopes, the first at a place.
fn rows_at(s: &[u8], at: usize) -> [Row; 4]
    requires { at + 455 ≤ length s.now }
    ensures { result ≡ rows_at s.now at }
{
    let first = row_at(s, at);
    let second = row_at(s, at + 140);
    let third = row_at(s, at + 280);
    let fourth = row_at(s, at + 420);
    [first, second, third, fourth]
}

// An envelope's phases at a place.
fn phases_at(s: &[u8], at: usize) -> Phases
    requires { at + 70 ≤ length s.now }
    ensures { result ≡ phases_at s.now at }
{
    let ipd = row_at(s, at);
    let opd = row_at(s, at + 35);
    Phases { ipd, opd }
}

// The phases of the four envelopes, the first at a place.
fn all_phases_at(s: &[u8], at: usize) -> [Phases; 4]
    requires { at + 490 ≤ length s.now }
    ensures { result ≡ all_phases_at s.now at }
{
    let first = phases_at(s, at);
    let second = phases_at(s, at + 140);
    let third = phases_at(s, at + 280);
    let fourth = phases_at(s, at + 420);
    [first, second, third, fourth]
}

// Six bytes as numbers.
fn six_of(a: u8, b: u8, c: u8, d: u8, e: u8, f: u8) -> [u32; 6]
    ensures { result ≡ a ∷ b ∷ c ∷ d ∷ e ∷ f ∷ [] }
{
    [a as u32, b as u32, c as u32, d as u32, e as u32, f as u32]
}

// The six bytes from a place on, as numbers.
fn six_at(s: &[u8], at: usize) -> [u32; 6]
    requires { at + 6 ≤ length s.now }
    ensures { result ≡ get_or s.now at 0 ∷ get_or s.now (at + 1) 0 ∷ get_or s.now (at + 2) 0
        ∷ get_or s.now (at + 3) 0 ∷ get_or s.now (at + 4) 0 ∷ get_or s.now (at + 5) 0 ∷ [] }
{
    six_of(s[at], s[at + 1], s[at + 2], s[at + 3], s[at + 4], s[at + 5])
}

// The header's fields.
fn header_at(s: &[u8]) -> Header
    requires { 10 ≤ length s.now }
    ensures { result ≡ header_at s.now }
{
    let six = six_at(s, 4);
    Header {
        there: six[0],
        iid: six[1],
        iidmode: six[2],
        icc: six[3],
        iccmode: six[4],
        ext: six[5],
    }
}

// Class, envelope count and borders.
fn frame_at(s: &[u8]) -> Frame
    requires { 16 ≤ length s.now }
    ensures { result ≡ frame_at s.now }
{
    let six = six_at(s, 10);
    let borders = [six[2], six[3], six[4], six[5]];
    Frame {
        class: six[0],
        envelopes: six[1] as usize,
        borders,
    }
}

// The extension's fields, fill bits and phases.
fn extension_at(s: &[u8]) -> Extension
    requires { 582 ≤ length s.now }
    ensures { result ≡ extension_at s.now }
{
    let six = six_at(s, 16);
    let phases = all_phases_at(s, 92);
    let body = Body {
        phase: six[3],
        phases,
    };
    let part = Part {
        body,
        count: six[4] as usize,
        value: six[5],
    };
    Extension {
        there: six[0],
        size: six[1],
        esc: six[2],
        part,
    }
}

// The contents that bytes stand for.
pub fn contents_at(s: &[u8]) -> Contents
    requires { 582 ≤ length s.now }
    ensures { result ≡ contents_at s.now }
{
    let header = header_at(s);
    let frame = frame_at(s);
    let iid = rows_at(s, 22);
    let icc = rows_at(s, 57);
    let extension = extension_at(s);
    Contents {
        header,
        frame,
        iid,
        icc,
        extension,
    }
}

// The header's fields as bytes.
fn header_bytes(header: Header) -> [u8; 6]
    ensures { result ≡ header_bytes header }
{
    [
        bytes::byte_of(header.there),
        bytes::byte_of(header.iid),
        bytes::byte_of(header.iidmode),
        bytes::byte_of(header.icc),
        bytes::byte_of(header.iccmode),
        bytes::byte_of(header.ext),
    ]
}

// Class, envelope count and borders as bytes.
fn frame_bytes(frame: Frame) -> [u8; 6]
    ensures { result ≡ frame_bytes frame }
{
    let borders = frame.borders;
    [
        bytes::byte_of(frame.class),
        bytes::low_byte(frame.envelopes),
        bytes::byte_of(borders[0]),
        bytes::byte_of(borders[1]),
        bytes::byte_of(borders[2]),
        bytes::byte_of(borders[3]),
    ]
}

// The extension's fields and fill bits as bytes.
fn extension_bytes(there: u32, size: u32, esc: u32, phase: u32, count: usize, value: u32) -> [u8; 6]
    ensures { result ≡ byte_of there ∷ byte_of size ∷ byte_of esc ∷ byte_of phase ∷ byte_of count ∷ byte_of value ∷ [] }
{
    [
        bytes::byte_of(there),
        bytes::byte_of(size),
        bytes::byte_of(esc),
        bytes::byte_of(phase),
        bytes::low_byte(count),
        bytes::byte_of(value),
    ]
}

// What stands before the envelopes is put at the front of a buffer.
fn put_head(out: &mut [u8], bits: usize, contents: &Contents)
    requires { 22 ≤ length out.old }
    ensures { (out.new ≡ over out.old 0 (answer_head bits contents.now)) × (length (answer_head bits contents.now) ≡ 22) }
{
    let word = bytes::word_of(bits);
    bytes::put(out, 0, &word);
    let header = header_bytes(contents.header);
    bytes::put(out, 4, &header);
    let frame = frame_bytes(contents.frame);
    bytes::put(out, 10, &frame);
    let extension = extension_bytes(
        contents.extension.there,
        contents.extension.size,
        contents.extension.esc,
        contents.extension.part.body.phase,
        contents.extension.part.count,
        contents.extension.part.value,
    );
    bytes::put(out, 16, &extension);
}

// An envelope is put at a place.
fn put_envelope(out: &mut [u8], at: usize, iid: Row, icc: Row, phases: Phases)
    requires { at + 140 ≤ length out.old }
    ensures { (out.new ≡ over out.old at (envelope_bytes iid icc phases))
        × (length (envelope_bytes iid icc phases) ≡ 140) }
{
    indices::put_numbered(out, at, iid.time, iid.indices);
    indices::put_numbered(out, at + 35, icc.time, icc.indices);
    indices::put_numbered(out, at + 70, phases.ipd.time, phases.ipd.indices);
    indices::put_numbered(out, at + 105, phases.opd.time, phases.opd.indices);
}

// The four envelopes are put where they stand.
fn put_envelopes(out: &mut [u8], iid: &[Row; 4], icc: &[Row; 4], phases: &[Phases; 4])
    requires { 582 ≤ length out.old }
    ensures { (out.new ≡ over out.old 22 (envelopes_bytes iid.now icc.now phases.now 4))
        × (length (envelopes_bytes iid.now icc.now phases.now 4) ≡ 560) }
{
    for e in 0..4 {
        put_envelope(out, 22 + 140 * e, iid[e], icc[e], phases[e]);
    }
}

// An answer is put at the front of a buffer: the bits used, and the contents.
pub fn put_answer(out: &mut [u8], bits: usize, contents: &Contents)
    requires { 582 ≤ length out.old }
    ensures { out.new ≡ over out.old 0 (answer_bytes bits contents.now) }
{
    put_head(out, bits, contents);
    put_envelopes(
        out,
        &contents.iid,
        &contents.icc,
        &contents.extension.part.body.phases,
    );
}
