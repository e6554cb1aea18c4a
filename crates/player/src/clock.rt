// The player: one sign at each sample clock, by value and where the caller holds it, and a block of them.
ghost use Rattle.std.specs.Prelude.{◌≡◌, ◌%◌, length, Err};
ghost use Rattle.sums.specs.Sum.{sign};
ghost use Rattle.sums.specs.Lists.{table};
ghost use Rattle.sums.specs.Refusals.{first};
ghost use Rattle.refusals.specs.Causes.{answer, numbered};
ghost use Rattle.player.specs.Calls.{new_outcome, advanced, step_checks, stepped_as, step_outcome, after, sign_after, played_as, play_outcome};

use crate::{Played, Player, Stepped};
use refusals::Refusal;
use register::shift::{full_period, step};
use register::taps::check_shape;

// A player with a window of ones and a count of 0, refusing 1, 2, 3.
pub fn new_player(order: u32, taps: u32) -> Result<Player, Refusal>
    ensures { numbered result ≡ new_outcome order taps }
{
    check_shape(order, taps)?;
    Ok(Player {
        order,
        taps,
        window: full_period(order),
        count: 0,
    })
}

// The checks 1, 2, 3 and 16.
fn check_player(player: Player) -> Result<(), Refusal>
    ensures { answer result ≡ first (step_checks player) }
{
    check_shape(player.order, player.taps)?;
    if player.window == 0 || full_period(player.order) < player.window {
        return Err(Refusal::Window);
    }
    Ok(())
}

// The sign that goes out next: +1 for a bit that is clear, -1 for one that is set.
fn next_sign(player: Player) -> i32
    ensures { result ≡ sign (player.window % 2) }
{
    if player.window % 2 == 0 { 1 } else { -1 }
}

// The player one step on. After a count of 4,294,967,295 comes 0.
fn next_player(player: Player) -> Player
    requires { first (step_checks player) ≡ 0 }
    ensures { result ≡ advanced player }
{
    Player {
        window: step(player.order, player.taps, player.window),
        count: player.count.wrapping_add(1),
        ..player
    }
}

fn refused(refusal: Refusal, held: Player) -> Stepped
    ensures { result ≡ record { tick = Err refusal; player = held } }
{
    Stepped {
        tick: Err(refusal),
        player: held,
    }
}

// The next sign and the player one step on; a refused step hands the player back as it was.
pub fn step_player(player: Player) -> Stepped
    ensures { stepped_as result ≡ step_outcome player }
{
    match check_player(player) {
        Err(refusal) => refused(refusal, player),
        Ok(()) => Stepped {
            tick: Ok(next_sign(player)),
            player: next_player(player),
        },
    }
}

// The same where the caller holds the player: the next sign, and the player is one step on; a refused step leaves it as it was.
pub fn advance(player: &mut Player) -> Result<i32, Refusal>
    ensures { step_outcome player.old ≡ record { tick = numbered result; player = player.new } }
{
    let stepped = step_player(*player);
    *player = stepped.player;
    stepped.tick
}

// The next signs, one to each place: the player after them.
fn fill_signs(player: Player, signs: &mut [i8]) -> Player
    requires { first (step_checks player) ≡ 0 }
    ensures value { result ≡ after player (length signs.old) }
    ensures signs_after { signs.new ≡ table (length signs.old) (sign_after player) }
{
    let mut next = player;
    for k in 0..signs.len() {
        signs[k] = next_sign(next) as i8;
        next = next_player(next);
    }
    next
}

// A block of the sample clock: as many signs as there are places, and the player after them; a refused block changes nothing.
pub fn play(player: Player, signs: &mut [i8]) -> Played
    ensures { (played_as result, signs.new) ≡ play_outcome player signs.old }
{
    match check_player(player) {
        Err(refusal) => Played {
            answer: Err(refusal),
            player,
        },
        Ok(()) => Played {
            answer: Ok(()),
            player: fill_signs(player, signs),
        },
    }
}

// A block where the caller holds the player.
pub fn fill(player: &mut Player, signs: &mut [i8]) -> Result<(), Refusal>
    ensures { play_outcome player.old signs.old ≡ (record { answer = answer result; player = player.new }, signs.new) }
{
    let played = play(*player, signs);
    *player = played.player;
    played.answer
}
