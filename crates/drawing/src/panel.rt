// Draws both panels, side by side, with what their displays show, and two flags that no display shows: overspeed
// and independent operation.
// A row has 35 columns between a border and a space on either side, so that both panels fit 80 columns.
ghost use Rattle.std.specs.Prelude.{◌≡◌};
ghost use Rattle.modes.specs.declared.ModeSet.{ModeSet};
ghost use Rattle.modes.specs.Sets.{engaged_in};
ghost use Rattle.modes.specs.Numbers.{lateral_law, vertical_law};
ghost use Rattle.drawing.specs.Panel.{steering};

use bench::{Bench, Shared};
use calls::reply::Display as Shown;
use channels::references::Reference;
use refusals::Refusal;
use sides::Side;
use std::fmt::{self, Display, Formatter};

// Both panels of a bench, framed by 'panel' and 'end'.
#[derive(Clone, Copy)]
pub struct Panels<'a>(pub &'a Bench);

impl Display for Panels<'_> {
    fn fmt<W: fmt::Write>(&self, f: &mut Formatter<W>) -> fmt::Result {
        let left = Panel::of(self.0, Side::Left);
        let right = Panel::of(self.0, Side::Right);
        write!(f, "panel\n{BORDER}  {BORDER}\n")?;
        for row in 0..17 {
            let left = Row { panel: left, row };
            let right = Row { panel: right, row };
            writeln!(f, "| {left} |  | {right} |")?;
        }
        write!(f, "{BORDER}  {BORDER}\nend\n")
    }
}

const BORDER: &str = "+-------------------------------------+";

// What the panel of a side is drawn from; of a display that was refused there is only the refusal.
#[derive(Clone, Copy)]
struct Panel {
    side: Side,
    display: Result<Shown, Refusal>,
    shared: Shared,
}

impl Panel {
    fn of(bench: &Bench, side: Side) -> Panel {
        Panel {
            side,
            display: calls::display(bench, side.number()),
            shared: bench.shared,
        }
    }

    fn name(&self) -> &'static str {
        match self.side {
            Side::Left => "LEFT",
            Side::Right => "RIGHT",
        }
    }

    // Whether the side has the pilot flying. A display shows both PF lamps.
    fn role(&self, lamps: u32) -> &'static str {
        let lamp = match self.side {
            Side::Left => 128,
            Side::Right => 256,
        };
        if lamps & lamp != 0 {
            "PILOT FLYING"
        } else {
            "passive"
        }
    }
}

// What stands in a row of a panel. A row goes by its number, since both panels stand in one line of text and a row of
// each is written in turn.
#[derive(Clone, Copy)]
struct Row {
    panel: Panel,
    row: u32,
}

impl Display for Row {
    fn fmt<W: fmt::Write>(&self, f: &mut Formatter<W>) -> fmt::Result {
        match self.panel.display {
            Ok(shown) => self.put_shown(f, shown),
            Err(refusal) => self.put_refused(f, refusal),
        }
    }
}

impl Row {
    // The display was refused: it has no value.
    fn put_refused<W: fmt::Write>(&self, f: &mut Formatter<W>, refusal: Refusal) -> fmt::Result {
        let name = self.panel.name();
        match self.row {
            0 => write!(f, "{name:<23}   REFUSED {}", u32::from(refusal)),
            2 => f.write_str("no values: the display is refused  "),
            _ => write!(f, "{:35}", ""),
        }
    }

    fn put_shown<W: fmt::Write>(&self, f: &mut Formatter<W>, shown: Shown) -> fmt::Result {
        let name = self.panel.name();
        let role = self.panel.role(shown.lamps);
        let lateral = lateral_name(shown.lateral);
        let vertical = vertical_name(shown.vertical);
        let armed_lateral = armed_lateral_name(shown.armed);
        let armed_vertical = armed_vertical_name(shown.armed);
        match self.row {
            0 => write!(f, "{name:<23}{role:>12}"),
            1 => put_switches(f, shown),
            2 => put_flags(f, self.panel.shared),
            3 => put_lamps(f, shown.lamps),
            4 => f.write_str("MODES                           law"),
            5 => write!(f, "lateral   engaged  {lateral:<15}{}", shown.lateral),
            6 => write!(f, "          armed    {armed_lateral:<16}"),
            7 => write!(f, "vertical  engaged  {vertical:<15}{}", shown.vertical),
            8 => write!(f, "          armed    {armed_vertical:<16}"),
            9 => f.write_str("TARGETS             * = steered to "),
            10 => put_target(f, shown, Reference::Heading, "heading", "deg"),
            11 => put_target(
                f,
                shown,
                Reference::Preselected,
                "preselected altitude",
                "ft",
            ),
            12 => put_target(f, shown, Reference::Held, "held altitude", "ft"),
            13 => put_target(
                f,
                shown,
                Reference::VerticalSpeed,
                "vertical speed",
                "ft/min",
            ),
            14 => put_target(f, shown, Reference::Ias, "indicated airspeed", "kt"),
            15 => put_target(f, shown, Reference::Roll, "roll", "deg"),
            _ => put_target(f, shown, Reference::Pitch, "pitch", "deg"),
        }
    }
}

// ---- flight director and autopilot, the flags, the lamps

fn put_switches<W: fmt::Write>(f: &mut Formatter<W>, shown: Shown) -> fmt::Result {
    let director = if shown.fd { "ON" } else { "off" };
    let autopilot = if shown.lamps & 64 != 0 { "ON" } else { "off" };
    write!(f, "flight director {director:<3}  autopilot {autopilot:<4}")
}

fn put_flags<W: fmt::Write>(f: &mut Formatter<W>, shared: Shared) -> fmt::Result {
    let overspeed = if shared.overspeed {
        "OVERSPEED FLAG SET"
    } else {
        "overspeed flag clear"
    };
    let operation = if shared.independent {
        "INDEPENDENT"
    } else {
        ""
    };
    write!(f, "{overspeed:<24}{operation:<11}")
}

// A lamp's part of the sum, and how it looks dark and lit.
const LAMPS: [(u32, &str, &str); 7] = [
    (1, " hdg ", "[HDG]"),
    (2, " nav ", "[NAV]"),
    (4, " appr ", "[APPR]"),
    (8, " vs ", "[VS]"),
    (16, " flc ", "[FLC]"),
    (32, " alt ", "[ALT]"),
    (64, " ap ", "[AP]"),
];

fn put_lamps<W: fmt::Write>(f: &mut Formatter<W>, lamps: u32) -> fmt::Result {
    for (part, dark, lit) in LAMPS {
        f.write_str(if lamps & part != 0 { lit } else { dark })?;
    }
    f.write_str(" ")
}

// ---- modes

fn lateral_name(law: u32) -> &'static str {
    match law {
        0 => "Off",
        1 => "ROLL",
        2 => "HDG",
        3 => "NAV",
        4 => "LAPPR",
        5 => "LGA",
        _ => "",
    }
}

fn vertical_name(law: u32) -> &'static str {
    match law {
        0 => "Off",
        1 => "PITCH",
        2 => "VS",
        3 => "FLC",
        4 => "ALT",
        5 => "ALTSEL capture",
        6 => "ALTSEL track",
        7 => "VAPPR",
        8 => "VGA",
        _ => "",
    }
}

// The lateral modes in a sum of armed modes.
fn armed_lateral_name(sum: u32) -> &'static str {
    match sum % 4 {
        0 => "-",
        1 => "NAV",
        2 => "LAPPR",
        _ => "NAV LAPPR",
    }
}

// The vertical modes in a sum of armed modes.
fn armed_vertical_name(sum: u32) -> &'static str {
    match sum / 4 {
        0 => "-",
        1 => "ALTSEL",
        2 => "VAPPR",
        3 => "ALTSEL VAPPR",
        _ => "",
    }
}

// ---- targets

// Whether an engaged mode steers to a reference. A law goes by its number here, as a display has it.
#[tactic(auto, unfolding(modes::specs::Sets::engaged))]
fn is_steered_to(name: Reference, shown: Shown) -> bool
    ensures { (s : ModeSet) → shown.lateral ≡ lateral_law s → shown.vertical ≡ vertical_law s → result ≡ engaged_in (steering name) s }
{
    match name {
        Reference::Roll => shown.lateral == 1,
        Reference::Heading => shown.lateral == 2,
        Reference::Pitch => shown.vertical == 1,
        Reference::VerticalSpeed => shown.vertical == 2,
        Reference::Ias => shown.vertical == 3,
        Reference::Held => shown.vertical == 4,
        Reference::Preselected => matches!(shown.vertical, 5 | 6),
    }
}

// A reference in its unit, and marked where it is steered to.
fn put_target<W: fmt::Write>(
    f: &mut Formatter<W>,
    shown: Shown,
    name: Reference,
    text: &str,
    unit: &str,
) -> fmt::Result {
    let mark = if is_steered_to(name, shown) { "*" } else { " " };
    let reference = i64::from(shown.references.get(name));
    let amount = match name {
        // it counts hundreds of feet a minute
        Reference::VerticalSpeed => reference * 100,
        _ => reference,
    };
    write!(f, "{mark} {text:<20}{amount:>6} {unit:<6}")
}
