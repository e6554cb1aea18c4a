// A player that a caller holds: lent to the player's calls for a clock, and for a block.
ghost use Rattle.std.specs.Prelude.{◌≡◌};
ghost use Rattle.player.specs.Calls.{stepped_as, step_outcome, played_as, play_outcome};

use player::clock::{advance, fill};
use player::{Played, Player, Stepped};

pub fn clocked(player: Player) -> Stepped
    ensures { stepped_as result ≡ step_outcome player }
{
    let mut held = player;
    let tick = advance(&mut held);
    Stepped { tick, player: held }
}

pub fn filled(player: Player, signs: &mut [i8]) -> Played
    ensures { (played_as result, signs.new) ≡ play_outcome player signs.old }
{
    let mut held = player;
    let answer = fill(&mut held, signs);
    Played {
        answer,
        player: held,
    }
}
