// Runs of a player: what it begins as, its signs, and what it ends as.
ghost use Rattle.std.specs.Prelude.{◌≤◌};

use crate::held::{clocked, filled};
use crate::print::{mark, marks, refused};
use defaults::taps::default_taps;
use lines::print::line_end;
use player::Player;
use player::clock::new_player;
use refusals::Refusal;

// A player that every step refuses.
const NONE: Player = Player {
    order: 0,
    taps: 0,
    window: 0,
    count: 0,
};

// A new player of the order's default taps.
fn of_default_taps(order: u32) -> Result<Player, Refusal> {
    new_player(order, default_taps(order)?)
}

// The same, and one that every step refuses where there is none.
pub fn new(order: u32) -> Player {
    of_default_taps(order).unwrap_or(NONE)
}

fn head(rt: &impl Print, name: &str, player: Player) {
    let _ = println!(rt;
        "{name} {} {} {} {}",
        player.order, player.taps, player.window, player.count
    );
}

fn end(rt: &impl Print, player: Player) {
    let _ = println!(rt; "end {} {}", player.window, player.count);
}

// The next block on a line: the player after it.
fn block_line(rt: &impl Print, player: Player, signs: &mut [i8]) -> Player {
    let played = filled(player, signs);
    match played.answer {
        Ok(()) => marks(rt, signs),
        Err(refusal) => refused(rt, refusal),
    }
    line_end(rt);
    played.player
}

fn block_of(rt: &impl Print, player: Player, n: usize) -> Player
    requires { n ≤ 64 }
{
    let mut signs: [i8; 64] = [0; 64];
    block_line(rt, player, &mut signs[..n])
}

// A line to each block, each block one longer than the one before it.
pub fn blocks_run(rt: &impl Print, player: Player, total: usize) {
    head(rt, "blocks", player);
    let mut next = player;
    let mut length = 1;
    let mut left = total;
    // By how many signs are left, and by no range.
    while 0 < left {
        let n = length.min(left);
        next = block_of(rt, next, n);
        left -= n;
        length = length % 64 + 1;
    }
    end(rt, next);
}

fn tick_mark(rt: &impl Print, tick: Result<i32, Refusal>) {
    match tick {
        Ok(sign) => mark(rt, sign),
        Err(refusal) => refused(rt, refusal),
    }
}

// The same, one clock at a time, on one line.
pub fn clocks_run(rt: &impl Print, player: Player, total: usize) {
    head(rt, "clocks", player);
    let mut next = player;
    for _ in 0..total {
        let stepped = clocked(next);
        tick_mark(rt, stepped.tick);
        next = stepped.player;
    }
    line_end(rt);
    end(rt, next);
}
