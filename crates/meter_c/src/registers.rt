// The doors of the register, the default taps and the player. A player crosses as its four numbers.
ghost use Rattle.std.specs.Prelude.{◌≡◌};
ghost use Rattle.register.specs.Calls.{told, taps_answer, sequence_outcome};
ghost use Rattle.meter.specs.Players.{player_of, default_door, new_door, step_door, play_door};

use meter::registers;

#[unsafe(no_mangle)]
pub extern "C" fn meter_taps(order: u32, taps: u32, period: &mut u32) -> u32
    ensures { (result ≡ taps_answer order taps) × (period.new ≡ told order taps result period.old) }
{
    registers::meter_taps(order, taps, period)
}

#[unsafe(no_mangle)]
pub extern "C" fn meter_default_taps(order: u32, taps: &mut u32) -> u32
    ensures { (result, taps.new) ≡ default_door order taps.old }
{
    registers::meter_default_taps(order, taps)
}

#[unsafe(no_mangle)]
pub extern "C" fn meter_sequence(order: u32, taps: u32, out: &mut [u8], period: &mut u32) -> u32
    ensures { ((result, out.new) ≡ sequence_outcome order taps out.old) × (period.new ≡ told order taps result period.old) }
{
    registers::meter_sequence(order, taps, out, period)
}

// The player's numbers o, t, window and count are those of a new player of this order and these taps.
#[unsafe(no_mangle)]
pub extern "C" fn meter_player_new(
    order: u32,
    taps: u32,
    o: &mut u32,
    t: &mut u32,
    window: &mut u32,
    count: &mut u32,
) -> u32
    ensures { (result, player_of o.new t.new window.new count.new)
        ≡ new_door order taps (player_of o.old t.old window.old count.old) }
{
    registers::meter_player_new(order, taps, o, t, window, count)
}

#[unsafe(no_mangle)]
pub extern "C" fn meter_player_step(
    order: &mut u32,
    taps: &mut u32,
    window: &mut u32,
    count: &mut u32,
    sign: &mut i32,
) -> u32
    ensures { (result, player_of order.new taps.new window.new count.new, sign.new)
        ≡ step_door (player_of order.old taps.old window.old count.old) sign.old }
{
    registers::meter_player_step(order, taps, window, count, sign)
}

#[unsafe(no_mangle)]
pub extern "C" fn meter_player_play(
    order: &mut u32,
    taps: &mut u32,
    window: &mut u32,
    count: &mut u32,
    signs: &mut [i8],
) -> u32
    ensures { (result, player_of order.new taps.new window.new count.new, signs.new)
        ≡ play_door (player_of order.old taps.old window.old count.old) signs.old }
{
    registers::meter_player_play(order, taps, window, count, signs)
}
