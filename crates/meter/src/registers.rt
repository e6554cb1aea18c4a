// The doors of the register, the default taps and the player. A player crosses as its four numbers.
ghost use Rattle.std.specs.Prelude.{◌≡◌};
ghost use Rattle.register.specs.Calls.{told, taps_answer, sequence_outcome};
ghost use Rattle.meter.specs.Players.{player_of, default_door, new_door, step_door, play_door};

use crate::periods::write_answer;
use defaults::taps::default_taps;
use player::Player;
use player::clock::{new_player, play, step_player};
use refusals::told;
use register::sequence::sequence;
use register::taps::check_taps;

pub fn meter_taps(order: u32, taps: u32, period: &mut u32) -> u32
    ensures { (result ≡ taps_answer order taps) × (period.new ≡ told order taps result period.old) }
{
    write_answer(check_taps(order, taps), period)
}

pub fn meter_default_taps(order: u32, taps: &mut u32) -> u32
    ensures { (result, taps.new) ≡ default_door order taps.old }
{
    match default_taps(order) {
        Ok(found) => {
            *taps = found;
            0
        }
        Err(refusal) => refusal.number(),
    }
}

pub fn meter_sequence(order: u32, taps: u32, out: &mut [u8], period: &mut u32) -> u32
    ensures { ((result, out.new) ≡ sequence_outcome order taps out.old) × (period.new ≡ told order taps result period.old) }
{
    write_answer(sequence(order, taps, out), period)
}

// The player's numbers o, t, window and count are those of a new player of this order and these taps.
pub fn meter_player_new(
    order: u32,
    taps: u32,
    o: &mut u32,
    t: &mut u32,
    window: &mut u32,
    count: &mut u32,
) -> u32
    ensures { (result, player_of o.new t.new window.new count.new)
        ≡ new_door order taps (player_of o.old t.old window.old count.old) }
{
    match new_player(order, taps) {
        Ok(p) => {
            *o = p.order;
            *t = p.taps;
            *window = p.window;
            *count = p.count;
            0
        }
        Err(refusal) => refusal.number(),
    }
}

pub fn meter_player_step(
    order: &mut u32,
    taps: &mut u32,
    window: &mut u32,
    count: &mut u32,
    sign: &mut i32,
) -> u32
    ensures { (result, player_of order.new taps.new window.new count.new, sign.new)
        ≡ step_door (player_of order.old taps.old window.old count.old) sign.old }
{
    let stepped = step_player(Player {
        order: *order,
        taps: *taps,
        window: *window,
        count: *count,
    });
    let next = stepped.player;
    *order = next.order;
    *taps = next.taps;
    *window = next.window;
    *count = next.count;
    match stepped.tick {
        Ok(x) => {
            *sign = x;
            0
        }
        Err(refusal) => refusal.number(),
    }
}

pub fn meter_player_play(
    order: &mut u32,
    taps: &mut u32,
    window: &mut u32,
    count: &mut u32,
    signs: &mut [i8],
) -> u32
    ensures { (result, player_of order.new taps.new window.new count.new, signs.new)
        ≡ play_door (player_of order.old taps.old window.old count.old) signs.old }
{
    let p = Player {
        order: *order,
        taps: *taps,
        window: *window,
        count: *count,
    };
    let played = play(p, signs);
    let next = played.player;
    *order = next.order;
    *taps = next.taps;
    *window = next.window;
    *count = next.count;
    told(played.answer)
}
