// What the answers say in numbers, each after a space: a flag is 0 or 1.
use bench::{Bench, Counts, Shared};
use calls::reply::{Display as Shown, Reply};
use channels::Channel;
use channels::references::References;
use feed::{Readings, Wholes};
use frames::Frame;
use guidance::Laws;
use modes::{ModeSet, Modes};
use sides::Pair;
use std::fmt::{self, Display, Formatter};

// A value that an answer says in numbers.
#[derive(Clone, Copy)]
pub struct Numbers<'a, T>(pub &'a T);

impl Display for Numbers<'_, bool> {
    fn fmt<W: fmt::Write>(&self, f: &mut Formatter<W>) -> fmt::Result {
        f.write_str(if *self.0 { " 1" } else { " 0" })
    }
}

// The language reads no pattern of a NaN, and a NaN is 'nan'.
impl Display for Numbers<'_, f64> {
    fn fmt<W: fmt::Write>(&self, f: &mut Formatter<W>) -> fmt::Result {
        let x = *self.0;
        if x.is_nan() {
            return f.write_str(" nan");
        }
        write!(f, " {:#018x}", x.to_bits())
    }
}

impl Display for Numbers<'_, Laws> {
    fn fmt<W: fmt::Write>(&self, f: &mut Formatter<W>) -> fmt::Result {
        let Laws { lateral, vertical } = *self.0;
        write!(f, " {lateral} {vertical}")
    }
}

impl Display for Numbers<'_, References> {
    fn fmt<W: fmt::Write>(&self, f: &mut Formatter<W>) -> fmt::Result {
        let References {
            heading,
            preselected,
            held,
            vertical_speed,
            ias,
            roll,
            pitch,
        } = *self.0;
        write!(
            f,
            " {heading} {preselected} {held} {vertical_speed} {ias} {roll} {pitch}"
        )
    }
}

impl Display for Numbers<'_, Shown> {
    fn fmt<W: fmt::Write>(&self, f: &mut Formatter<W>) -> fmt::Result {
        let Shown {
            fd,
            lateral,
            vertical,
            armed,
            references,
            lamps,
        } = *self.0;
        write!(
            f,
            "{} {lateral} {vertical} {armed}{} {lamps}",
            Numbers(&fd),
            Numbers(&references)
        )
    }
}

// What a call tells beside its refusal.
impl Display for Numbers<'_, Reply> {
    fn fmt<W: fmt::Write>(&self, f: &mut Formatter<W>) -> fmt::Result {
        match *self.0 {
            Reply::Done => Ok(()),
            Reply::Event(number) => write!(f, " {number}"),
            Reply::Shown(shown) => write!(f, "{}", Numbers(&shown)),
        }
    }
}

impl Display for Numbers<'_, Modes> {
    fn fmt<W: fmt::Write>(&self, f: &mut Formatter<W>) -> fmt::Result {
        let modes = self.0;
        write!(f, " {}", u32::from(modes.lateral))?;
        write!(f, " {}", u32::from(modes.armed))?;
        write!(
            f,
            " {}{}",
            u32::from(modes.vertical),
            Numbers(&modes.vappr_armed)
        )
    }
}

impl Display for Numbers<'_, ModeSet> {
    fn fmt<W: fmt::Write>(&self, f: &mut Formatter<W>) -> fmt::Result {
        match *self.0 {
            ModeSet::Off => f.write_str(" 0 0 0 0"),
            ModeSet::On(modes) => write!(f, "{}", Numbers(&modes)),
        }
    }
}

impl Display for Numbers<'_, Channel> {
    fn fmt<W: fmt::Write>(&self, f: &mut Formatter<W>) -> fmt::Result {
        let channel = self.0;
        write!(
            f,
            "{}{}{}",
            Numbers(&channel.fd),
            Numbers(&channel.set),
            Numbers(&channel.references)
        )
    }
}

impl Display for Numbers<'_, Counts> {
    fn fmt<W: fmt::Write>(&self, f: &mut Formatter<W>) -> fmt::Result {
        let Counts {
            wheel,
            altitude,
            speed,
            heading,
        } = *self.0;
        write!(f, " {wheel} {altitude} {speed} {heading}")
    }
}

impl Display for Numbers<'_, Readings> {
    fn fmt<W: fmt::Write>(&self, f: &mut Formatter<W>) -> fmt::Result {
        let readings = self.0;
        write!(
            f,
            "{}{}",
            Numbers(&readings.altitude),
            Numbers(&readings.airspeed)
        )?;
        write!(
            f,
            "{}{}",
            Numbers(&readings.vertical_speed),
            Numbers(&readings.roll)
        )?;
        write!(
            f,
            "{}{}",
            Numbers(&readings.pitch),
            Numbers(&readings.heading)
        )
    }
}

impl Display for Numbers<'_, Wholes> {
    fn fmt<W: fmt::Write>(&self, f: &mut Formatter<W>) -> fmt::Result {
        let Wholes {
            altitude,
            airspeed,
            vertical_speed,
            roll,
            pitch,
            heading,
        } = *self.0;
        write!(
            f,
            " {altitude} {airspeed} {vertical_speed} {roll} {pitch} {heading}"
        )
    }
}

impl Display for Numbers<'_, Shared> {
    fn fmt<W: fmt::Write>(&self, f: &mut Formatter<W>) -> fmt::Result {
        let shared = self.0;
        write!(f, " {}{}", shared.pf, Numbers(&shared.ap))?;
        write!(
            f,
            "{}{}",
            Numbers(&shared.overspeed),
            Numbers(&shared.independent)
        )
    }
}

impl Display for Numbers<'_, Pair<Channel>> {
    fn fmt<W: fmt::Write>(&self, f: &mut Formatter<W>) -> fmt::Result {
        let channels = self.0;
        write!(f, "{}{}", Numbers(&channels.left), Numbers(&channels.right))
    }
}

// The sides come before their inboxes.
impl Display for Numbers<'_, Bench> {
    fn fmt<W: fmt::Write>(&self, f: &mut Formatter<W>) -> fmt::Result {
        let bench = self.0;
        write!(f, "{}{}", Numbers(&bench.shared), Numbers(&bench.counts))?;
        write!(f, "{}{}", Numbers(&bench.readings), Numbers(&bench.wholes))?;
        write!(f, "{}{}", Numbers(&bench.sides), Numbers(&bench.inboxes))
    }
}

// All sets, a number for each code.
impl Display for Numbers<'_, [u16; 108]> {
    fn fmt<W: fmt::Write>(&self, f: &mut Formatter<W>) -> fmt::Result {
        for number in self.0 {
            write!(f, " {number}")?;
        }
        Ok(())
    }
}

impl Display for Numbers<'_, Frame> {
    fn fmt<W: fmt::Write>(&self, f: &mut Formatter<W>) -> fmt::Result {
        let Frame { side, channel } = *self.0;
        write!(f, " {}{}", side.number(), Numbers(&channel))
    }
}
