// The signs that players give, by blocks and one clock at a time: a second program prints the same lines.
#![tactic(auto)]

mod held;
mod print;
mod runs;

use player::Player;
use runs::{blocks_run, clocks_run, new};

// The order, the taps and the window of players that are refused: they give nothing, and stay as they were.
const REFUSED: [(u32, u32, u32); 5] = [(1, 1, 1), (3, 8, 7), (3, 2, 7), (3, 3, 0), (3, 3, 8)];

fn main(rt: HostRuntime) {
    blocks_run(&rt, new(2), 9);
    blocks_run(&rt, new(3), 17);
    blocks_run(&rt, new(9), 1025);
    clocks_run(&rt, new(3), 17);
    // The player of order 3 after 4,294,967,290 samples is at place 5: its count wraps within the run.
    let late = Player {
        order: 3,
        taps: 3,
        window: 5,
        count: 4294967290,
    };
    blocks_run(&rt, late, 17);
    clocks_run(&rt, late, 17);
    for (order, taps, window) in REFUSED {
        let player = Player {
            order,
            taps,
            window,
            count: 5,
        };
        blocks_run(&rt, player, 1);
        clocks_run(&rt, player, 1);
    }
}
