// The picker of the guidance program: the two laws that a side's display names. All that it knows
// of the bench is what the display call promises.
#![tactic(auto)]

ghost use Rattle.std.specs.Prelude.{◌≡◌};
ghost use Rattle.guidance.specs.Picker.{no_laws, picked};

use bench::Bench;
use calls::reply::Display;
use refusals::Refusal;

// The numbers of a lateral law, 0 to 5, and of a vertical law, 0 to 8: the guidance program picks a control law by each.
#[derive(Clone, Copy)]
pub struct Laws {
    pub lateral: u32,
    pub vertical: u32,
}

// What the papers have beside a refused pick.
pub fn no_laws() -> Laws
    ensures { result ≡ no_laws }
{
    Laws {
        lateral: 0,
        vertical: 0,
    }
}

// The laws to fly on a side of a bench, or the display's refusal.
#[tactic(auto, unfolding(crate::specs::Picker::picked))]
pub fn pick(b: &Bench, side: u32) -> Result<Laws, Refusal>
    ensures { result ≡ picked b.now side }
{
    let Display {
        lateral,
        vertical,
        ..
    } = calls::display(b, side)?;
    Ok(Laws { lateral, vertical })
}
