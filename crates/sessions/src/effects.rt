// What a command's effect means for the watch and for the bus area.
ghost use Rattle.std.specs.Prelude.{◌≡◌};
ghost use Rattle.sessions.specs.Effects.{watch_after, is_drawn, area_act};

use acts::Effect;
use scripts::AreaAct;

// The watch after a command, from the one before it.
pub(crate) fn watch_after(effect: Effect, watch: bool) -> bool
    ensures { result ≡ watch_after effect watch }
{
    match effect {
        Effect::Watches(on) => on,
        Effect::Shows | Effect::Acts | Effect::Stores(_) => watch,
    }
}

// Whether a drawing follows a command's answer.
pub(crate) fn is_drawn(effect: Effect, watch: bool) -> bool
    ensures { result ≡ is_drawn effect watch }
{
    watch && matches!(effect, Effect::Acts)
}

// What is done to the area, if anything is.
pub(crate) fn area_act(effect: Effect) -> Option<AreaAct>
    ensures { result ≡ area_act effect }
{
    match effect {
        Effect::Stores(act) => Some(act),
        Effect::Shows | Effect::Acts | Effect::Watches(_) => None,
    }
}
