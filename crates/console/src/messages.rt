// What the console says in words: what is wrong with a line that is no command, and the list of commands.
use scripts::Mistake;

// What is taken where a line went wrong.
pub(crate) fn reason(mistake: Mistake) -> &'static str {
    match mistake {
        Mistake::TooLong => "the line has more than 255 bytes",
        Mistake::NoCommand => COMMANDS,
        Mistake::TooManyWords =>
            "a word too many; nothing but a comment, from # on, may follow here",
        Mistake::NoWord => "WORD is a number from 0 to 4294967295",
        Mistake::NoSide => "SIDE is left, right or a number from 0 to 4294967295",
        Mistake::NoKnobNumber => KNOB_NUMBERS,
        Mistake::NoCount => "COUNT is a number from 0 to 255",
        Mistake::NoKnob => "KNOB is wheel, altitude, speed, heading or a number from 0 to 3",
        Mistake::NoClicks => "CLICKS is a number from -128 to 127",
        Mistake::NoSwitch => SWITCHES,
        Mistake::NoSignal => SIGNALS,
        Mistake::NoWatch => "watch takes on or off",
        Mistake::NoKind => "KIND is altitude, airspeed, vertical-speed, roll, pitch or heading",
        Mistake::NoValue => VALUES,
        Mistake::NoDamage => DAMAGED,
        Mistake::NoPf => "N is a number from 0 to 255",
        Mistake::NoReference => REFERENCES,
        Mistake::NoSigned => "N is a number from -2147483648 to 2147483647",
        Mistake::NoSet => SETS,
        Mistake::NoFlag => "N is 0 or 1",
        Mistake::NoLength => "LENGTH is a number from 0 to 2048",
        Mistake::NoStart => "START is a number from 0 to 18446744073709551615",
        Mistake::NoPairs => "HEX is one or more pairs of hexadecimal digits, such as 0fF0",
        Mistake::NoSpeed => SPEEDS,
        Mistake::NoRoom => OUTSIDE,
    }
}

const COMMANDS: &str =
    "no such command; there are event, press, signal, turn, knob, reading, send, refresh, display, \
pick, power-on, start, bench, panel, watch, help, damage, area, poke, write, read, bytes \
and codes";

const KNOB_NUMBERS: &str =
    "KNOB is wheel, altitude, speed, heading or a number from 0 to 4294967295";

const SWITCHES: &str =
    "SWITCH is ap-disconnect, ap, go-around, transfer, fd-left, fd-right, hdg, nav, appr, vs, flc, \
alt or independent";

const SIGNALS: &str =
    "SIGNAL is overspeed-begins, overspeed-ends, source-changed, nav-captured, lappr-captured, \
vappr-captured, altsel-captured or altsel-on-track";

const VALUES: &str =
    "VALUE is a number like -12.5, of at most 15 significant digits and 15 after the point, or 0x \
and 16 hexadecimal digits, or nan, inf or -inf";

const DAMAGED: &str =
    "damage takes left, right, left-inbox, right-inbox, reading, whole, pf or independent";

const REFERENCES: &str =
    "behind the box stands heading, preselected, held, vertical-speed, ias, roll, pitch or set";

const SETS: &str =
    "a set is LATERAL 1 to 5, ARMED 0 to 2, VERTICAL 1 to 8, VAPPR-ARMED 0 or 1, or 0 and three numbers \
for Off";

const SPEEDS: &str =
    "SPEED is a number from -2147483648 to 2147483647; a start refuses all but 60 to 400";

const OUTSIDE: &str =
    "all bytes from START on have to lie inside the area; bytes shows it, and area LENGTH makes a \
new one";

// The list of commands, framed by 'help' and 'end'.
pub(crate) const HELP: &str = "help\n\
press SWITCH        ap-disconnect ap go-around transfer fd-left fd-right hdg nav appr vs flc alt \
independent\n\
signal SIGNAL       overspeed-begins overspeed-ends source-changed nav-captured lappr-captured vappr-captured \
altsel-captured altsel-on-track\n\
event WORD          the same by a word of bits, of which the lowest decides: bit 14, word 16384, is hdg\n\
knob KNOB CLICKS    wheel altitude speed heading, by -128 to 127 clicks\n\
turn KNOB COUNT     the same by the knob's new count, 0 to 255\n\
reading KIND VALUE  altitude airspeed vertical-speed roll pitch heading; a number such as -12.5\n\
send SIDE           left or right: its flight director, modes and targets go to the other side's inbox\n\
refresh SIDE        the passive side takes modes and targets from its inbox; the active one looks if it is On\n\
display SIDE        what a side shows, in numbers\n\
pick SIDE           the lateral and the vertical law of a side\n\
panel               both sides drawn\n\
watch on            draw them after each command that can change the bench; watch off ends it\n\
bench               all that the bench holds, in numbers\n\
power-on            begin anew, at 120 knots\n\
start SPEED         begin anew at 60 to 400 knots; at any other number it is refused, and the speed is 120\n\
damage ...          write into the bench past all rules: the manual, section 5\n\
area LENGTH         a bus area of 0 to 2048 bytes, all 0, in place of the one before\n\
poke START HEX      put bytes into it, as pairs of hexadecimal digits\n\
write SIDE START    put the frame of a side into it: flight director, modes and targets, in 19 bytes\n\
read START          what the frame there says, in numbers\n\
bytes               all bytes of the area\n\
codes               all sets by their codes, each as lateral law x 256 + vertical law x 16 + armed sum\n\
help                this list\n\
end\n";
