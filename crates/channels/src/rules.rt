// What an event and a refresh make of a side.
ghost use Rattle.std.specs.Prelude.{◌≡◌};
ghost use Rattle.channels.specs.Rules.{is_on, coming_on, second_step, third_step, after_event, after_refresh, taken};

use crate::{Channel, Inputs};
use modes::{Event, ModeSet};

fn coming_on(s: ModeSet) -> ModeSet
    ensures { result ≡ coming_on s }
{
    match s {
        ModeSet::Off => ModeSet::On(modes::sets::basic_modes()),
        ModeSet::On(_) => s,
    }
}

#[tactic(auto, unfolding(crate::specs::Rules::third_step))]
fn third_step(event: Event, inputs: &Inputs, s: ModeSet) -> ModeSet
    ensures { result ≡ third_step event inputs.now s }
{
    match s {
        ModeSet::Off => ModeSet::Off,
        ModeSet::On(m) => ModeSet::On(events::change(event, inputs.overspeed, m)),
    }
}

impl Channel {
    // The On rule: the side's own FD, the one in its inbox, or AP.
    #[tactic(auto, unfolding(crate::specs::Rules::is_on))]
    fn is_on(&self, inputs: &Inputs) -> bool
        ensures { result ≡ is_on inputs.now self.now }
    {
        self.fd | inputs.sent_fd | inputs.ap
    }

    // The set by the On rule.
    #[tactic(auto, unfolding(crate::specs::Rules::second_step))]
    fn second_step(&self, inputs: &Inputs) -> ModeSet
        ensures { result ≡ second_step inputs.now self.now }
    {
        if self.is_on(inputs) {
            coming_on(self.set)
        } else {
            ModeSet::Off
        }
    }

    // The second and the third step of an event, with entry.
    #[tactic(auto, unfolding(crate::specs::Rules::after_event))]
    pub fn happen(&mut self, event: Event, inputs: &Inputs)
        ensures { self.new ≡ after_event event inputs.now self.old }
    {
        let on = self.second_step(inputs);
        self.enter(third_step(event, inputs, on), &inputs.wholes);
    }

    // A refresh of a side that acts: the second step alone, with entry.
    #[tactic(auto, unfolding(crate::specs::Rules::after_refresh))]
    pub fn refresh(&mut self, inputs: &Inputs)
        ensures { self.new ≡ after_refresh inputs.now self.old }
    {
        let on = self.second_step(inputs);
        self.enter(on, &inputs.wholes);
    }

    // A refresh of a side that does not act: set and references of what was sent to it. Its flight director stays.
    pub fn take_over(&mut self, sent: &Channel)
        ensures { self.new ≡ taken sent.now self.old }
    {
        self.set = sent.set;
        self.references = sent.references;
    }
}
