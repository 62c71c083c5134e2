// The checksum of a list's arguments and answers.
use bench::call::Call;
use bench::{Bench, Counts};
use calls::reply::{Display, Reply, beside_refusal};
use channels::Channel;
use channels::references::References;
use feed::{Kind, Reading, Readings, Wholes};
use refusals::{Refusal, Told};
use sides::Pair;

// A sum of words, in their order.
#[derive(Clone, Copy)]
pub(crate) struct Sum(pub(crate) u64);

impl Sum {
    // One more word. For each word the new sums are as many as the old ones, and for each sum the words
    // too, so that a single answer that differs is never lost at once.
    pub(crate) fn with(self, word: u64) -> Sum {
        let next = crate::list::shuffled(self.0 ^ word);
        Sum(next.wrapping_add(0x9e37_79b9_7f4a_7c15))
    }

    pub(crate) fn with_all<const N: usize>(self, words: [u64; N]) -> Sum {
        words.iter().fold(self, |sum, word| sum.with(*word))
    }

    // A call's arguments.
    pub(crate) fn with_call(self, call: Call) -> Sum {
        match call {
            Call::Event(word) => self.with(u64::from(word)),
            Call::Turn(knob, new) => self.with(pair(knob, u32::from(new))),
            Call::Reading(r) => self.with_reading(r),
            Call::Send(side) | Call::Refresh(side) | Call::Display(side) => {
                self.with(u64::from(side))
            }
        }
    }

    // Zeros in place of what a call would answer.
    pub(crate) fn with_no_answer(self, call: Call) -> Sum {
        match call {
            Call::Display(_) => self.with_all([0; 3]),
            Call::Event(_)
            | Call::Turn(_, _)
            | Call::Reading(_)
            | Call::Send(_)
            | Call::Refresh(_) => self.with(0),
        }
    }

    // What a call answers: its refusal, and the event acted on or 32, or all that is shown.
    #[inline(always)]
    pub(crate) fn with_answer(self, call: Call, answer: Result<Reply, Refusal>) -> Sum {
        let Told { refusal, value } = Told::of(beside_refusal(call), answer);
        match value {
            Reply::Done => self.with(u64::from(refusal)),
            Reply::Event(event) => self.with(pair(refusal, event)),
            Reply::Shown(d) => self.with_display(refusal, d),
        }
    }

    // A display's refusal, and what is shown.
    fn with_display(self, refusal: u32, d: Display) -> Sum {
        let laws = (u64::from(d.lateral) << 8) ^ (u64::from(d.vertical) << 16);
        let lights = (u64::from(d.armed) << 24) ^ (u64::from(d.fd) << 48);
        self.with(pair(refusal, d.lamps) ^ laws ^ lights)
            .with_all(reference_words(d.references))
    }

    // A reading's kind and its float.
    fn with_reading(self, r: Reading) -> Sum {
        self.with(kind_code(r.kind())).with(float_code(r.float()))
    }

    // A side or an inbox. The two laws and the armed sum tell every set from every other.
    pub(crate) fn with_channel(self, c: Channel) -> Sum {
        let lateral = u64::from(modes::numbers::lateral_law(c.set));
        let vertical = u64::from(modes::numbers::vertical_law(c.set));
        let armed = u64::from(modes::numbers::armed_sum(c.set));
        self.with(lateral ^ (vertical << 8) ^ (armed << 16) ^ (u64::from(c.fd) << 40))
            .with_all(reference_words(c.references))
    }

    // The sides, or the inboxes.
    fn with_pair(self, channels: Pair<Channel>) -> Sum {
        self.with_channel(channels.left)
            .with_channel(channels.right)
    }

    // All that a bench holds.
    pub(crate) fn with_bench(self, b: Bench) -> Sum {
        let s = b.shared;
        let lights = (u64::from(s.ap) << 32) ^ (u64::from(s.overspeed) << 33);
        self.with(u64::from(s.pf) ^ lights ^ (u64::from(s.independent) << 34))
            .with(count_word(b.counts))
            .with_all(reading_words(b.readings))
            .with_all(whole_words(b.wholes))
            .with_pair(b.sides)
            .with_pair(b.inboxes)
    }
}

// Two numbers in a word.
pub(crate) fn pair(low: u32, high: u32) -> u64 {
    u64::from(low) ^ (u64::from(high) << 32)
}

// The kinds by number, in the order of the readings.
fn kind_code(kind: Kind) -> u64 {
    match kind {
        Kind::Altitude => 0,
        Kind::Airspeed => 1,
        Kind::VerticalSpeed => 2,
        Kind::Roll => 3,
        Kind::Pitch => 4,
        Kind::Heading => 5,
    }
}

// A signed number: twice its magnitude, and 1 more below zero.
fn signed_code(x: i32) -> u64 {
    (number_forms::magnitude(x) << 1) ^ u64::from(x < 0)
}

// A float by its bit pattern, and what is no number by 1.
fn float_code(x: f64) -> u64 {
    if x.is_nan() { 1 } else { x.to_bits() }
}

// The seven references.
fn reference_words(r: References) -> [u64; 2] {
    [
        signed_code(r.heading)
            ^ (signed_code(r.preselected) << 12)
            ^ (signed_code(r.held) << 32)
            ^ (signed_code(r.vertical_speed) << 52),
        signed_code(r.ias) ^ (signed_code(r.roll) << 16) ^ (signed_code(r.pitch) << 32),
    ]
}

// The last counts of the knobs.
fn count_word(c: Counts) -> u64 {
    u64::from(u32::from_le_bytes([c.wheel, c.altitude, c.speed, c.heading]))
}

// The last readings.
fn reading_words(w: Readings) -> [u64; 6] {
    [
        float_code(w.altitude),
        float_code(w.airspeed),
        float_code(w.vertical_speed),
        float_code(w.roll),
        float_code(w.pitch),
        float_code(w.heading),
    ]
}

// Their whole values.
fn whole_words(k: Wholes) -> [u64; 2] {
    [
        signed_code(k.altitude)
            ^ (signed_code(k.airspeed) << 20)
            ^ (signed_code(k.vertical_speed) << 40),
        signed_code(k.roll) ^ (signed_code(k.pitch) << 20) ^ (signed_code(k.heading) << 40),
    ]
}
