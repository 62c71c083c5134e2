// Frames: what a send copies, as 19 bytes in a bus area. A frame that is written or read is no send: a write only looks
// at its bench, and a read is given none.
#![tactic(auto)]

ghost use Rattle.std.specs.Prelude.{◌≡◌, cond, [], ◌∷◌, ◌++◌, ◌*◌, ◌+◌, ltb, pos, ◌-ℤ◌, length, drop, Ok, Err};
ghost use Rattle.refusals.specs.declared.Refusal.{Refusal};
ghost use Rattle.frames.specs.Frames.{added, raised, high, low, frame_of, write_verdict, area_written, is_marked, references_in, fields_read, frame_read, read_at, no_frame};

use bench::Bench;
use channels::Channel;
use channels::references::{Reference, References};
use modes::ModeSet;
use refusals::Refusal;
use sides::Side;

// What a frame says: the side that it is of, and the side's flight director, set and references.
#[derive(Clone, Copy)]
pub struct Frame {
    pub side: Side,
    pub channel: Channel,
}

// What a frame adds to a reference, since its numbers have no sign: as much as the reference's range goes below 0.
fn added(name: Reference) -> u16
    ensures { result ≡ added name }
{
    name.range().low.min(0).unsigned_abs() as u16
}

// ---- writing

// A reference with what is added to it, and 0 where that is negative.
fn raised(name: Reference, r: &References) -> u64
    ensures { result ≡ raised name r.now }
{
    u64::try_from(i64::from(r.get(name)) + i64::from(added(name))).unwrap_or(0)
}

// The last two bytes of a number, the high one first.
fn two_bytes_of(n: u64) -> [u8; 2]
    ensures { result ≡ high n ∷ low n ∷ [] }
{
    ((n % 65536) as u16).to_be_bytes()
}

// The last byte of a number.
fn byte_of(n: u64) -> u8
    ensures { result ≡ low n }
{
    (n % 256) as u8
}

// The frame of a channel, as that of a side.
#[tactic(auto, unfolding(crate::specs::Frames::frame_of), using(crate::proofs::Numbers::flag_byte))]
fn frame_bytes(side: Side, c: &Channel) -> [u8; 19]
    ensures { result ≡ frame_of side c.now }
{
    let r = &c.references;
    let [heading_high, heading_low] = two_bytes_of(raised(Reference::Heading, r));
    let [ias_high, ias_low] = two_bytes_of(raised(Reference::Ias, r));
    let [preselected_high, preselected_low] = two_bytes_of(raised(Reference::Preselected, r));
    let [held_high, held_low] = two_bytes_of(raised(Reference::Held, r));
    [
        b'F',
        b'G',
        b'B',
        0,
        1,
        side.number() as u8,
        u8::from(c.fd),
        codes::set_code(c.set) as u8,
        heading_high,
        heading_low,
        byte_of(raised(Reference::VerticalSpeed, r)),
        byte_of(raised(Reference::Roll, r)),
        byte_of(raised(Reference::Pitch, r)),
        ias_high,
        ias_low,
        preselected_high,
        preselected_low,
        held_high,
        held_low,
    ]
}

// Puts the frame of a channel at the beginning of a part of the area, if it has room.
fn write_frame(part: &mut [u8], side: Side, c: &Channel) -> Result<(), Refusal>
    ensures answer { result ≡ cond (ltb (length part.old) 19) (Err Refusal.NoRoom) (Ok tt) }
    ensures new_part { part.new ≡ cond (ltb (length part.old) 19) part.old (frame_of side c.now ++ drop 19 part.old) }
{
    let front = part.first_chunk_mut::<19>().ok_or(Refusal::NoRoom)?;
    *front = frame_bytes(side, c);
    Ok(())
}

// Writes the frame of a side of the bench into the area, from a start on. The side comes as any number, and is refused
// where it is none.
#[tactic(auto, unfolding(crate::specs::Frames::side_written, crate::specs::Frames::area_written))]
pub fn write(b: &Bench, side: u32, area: &mut [u8], start: usize) -> Result<(), Refusal>
    ensures answer { result ≡ write_verdict b.now side start area.old }
    ensures new_area { area.new ≡ area_written b.now side start area.old }
{
    if !b.is_sound() {
        return Err(Refusal::UnsoundBench);
    }
    let side = Side::try_from(side)?;
    if area.len() < start {
        return Err(Refusal::NoRoom);
    }
    write_frame(&mut area[start..], side, &b.sides.get(side))
}

// ---- reading

// The reference of one byte, less what a frame adds to it.
fn one_byte(byte: u8, name: Reference) -> i32
    ensures { result ≡ pos byte -ℤ pos (added name) }
{
    i32::from(byte) - i32::from(added(name))
}

// The reference of two bytes, the high one first, less what a frame adds to it.
fn two_bytes(high: u8, low: u8, name: Reference) -> i32
    ensures { result ≡ pos (high * 256 + low) -ℤ pos (added name) }
{
    i32::from(u16::from_be_bytes([high, low])) - i32::from(added(name))
}

#[tactic(auto, unfolding(crate::specs::Frames::references_in))]
fn references_in(frame: &[u8; 19]) -> References
    ensures { result ≡ references_in frame.now }
{
    References {
        heading: two_bytes(frame[8], frame[9], Reference::Heading),
        preselected: two_bytes(frame[15], frame[16], Reference::Preselected),
        held: two_bytes(frame[17], frame[18], Reference::Held),
        vertical_speed: one_byte(frame[10], Reference::VerticalSpeed),
        ias: two_bytes(frame[13], frame[14], Reference::Ias),
        roll: one_byte(frame[11], Reference::Roll),
        pitch: one_byte(frame[12], Reference::Pitch),
    }
}

// Whether a frame has the mark and the version.
#[tactic(auto, unfolding(crate::specs::Frames::is_marked))]
fn is_marked(frame: &[u8; 19]) -> bool
    ensures { result ≡ is_marked frame.now }
{
    matches!(frame, [b'F', b'G', b'B', 0, 1, ..])
}

// The fields of a frame, if each is in its range.
#[tactic(auto, unfolding(crate::specs::Frames::fields_read))]
fn read_fields(frame: &[u8; 19]) -> Result<Frame, Refusal>
    ensures { result ≡ fields_read frame.now }
{
    let side = Side::try_from(u32::from(frame[5])).map_err(|_| Refusal::FieldOutOfRange)?;
    let set = codes::set_of(u32::from(frame[7])).ok_or(Refusal::FieldOutOfRange)?;
    let references = references_in(frame);
    let in_range = frame[6] <= 1 && references.are_in_range();
    if !in_range {
        return Err(Refusal::FieldOutOfRange);
    }
    Ok(Frame {
        side,
        channel: Channel {
            fd: frame[6] == 1,
            set,
            references,
        },
    })
}

// Reads the frame at the beginning of a part of the area.
#[tactic(auto, unfolding(crate::specs::Frames::frame_read))]
fn read_frame(part: &[u8]) -> Result<Frame, Refusal>
    ensures { result ≡ frame_read part.now }
{
    let frame = part.first_chunk::<19>().ok_or(Refusal::NoRoom)?;
    if !is_marked(frame) {
        return Err(Refusal::NoFrame);
    }
    read_fields(frame)
}

// Reads the frame that begins at a start in the area.
#[tactic(auto, unfolding(crate::specs::Frames::read_at, crate::specs::Frames::frame_read))]
pub fn read(area: &[u8], start: usize) -> Result<Frame, Refusal>
    ensures { result ≡ read_at start area.now }
{
    read_frame(area.get(start..).ok_or(Refusal::NoRoom)?)
}

// What stands beside a refused read: all zeros.
pub fn no_frame() -> Frame
    ensures { result ≡ no_frame }
{
    Frame {
        side: Side::Left,
        channel: Channel {
            fd: false,
            set: ModeSet::Off,
            references: References::zero(),
        },
    }
}
