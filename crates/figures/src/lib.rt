// The worked figures of the rules, as one list.
#![tactic(auto)]

ghost use Rattle.std.specs.Prelude.{◌≡◌, length};
ghost use Rattle.figures.specs.Figures.{figures, FiguresHold};

// How many figures are worked out; each of them holds.
pub fn worked_figures() -> usize
    ensures value { result ≡ length figures }
    ensures hold { FiguresHold }
{
    15
}
