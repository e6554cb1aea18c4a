// The log program: a campaign's log on standard input, its lines on standard output.
#![tactic(auto)]

mod running;
mod telling;

use logprogram::Bookmark;
use running::run;
use telling::{tell, word_for};

// What could not be done.
#[derive(Clone, Copy)]
pub enum Failed {
    // A turn's text was not written whole.
    Writing,
    // The input could not be read.
    Reading,
}

// Where the program stands, the bytes of the buffer that are at hand, and what failed, if anything did.
#[derive(Clone, Copy)]
pub struct Progress {
    pub mark: Bookmark,
    pub from: usize,
    pub to: usize,
    pub ended: bool,
    pub failed: Option<Failed>,
}

// What is said on standard error once the program has stopped.
#[derive(Clone, Copy)]
pub enum Word {
    // The log ended where it may, what failed is told already, or the program took all of its turns.
    Silence,
    BadLog,
    RefusedStart,
}

// The bytes that are at hand, and a turn's text.
const BUFFER: usize = 65536;

// The period of the largest order that the program takes, the longest night that it keeps, of five periods, its wide room, and the store of the
// most slots.
const PERIOD: usize = 511;

const NIGHT: usize = 2555;

const ROOM: usize = 512;

const STORE: usize = 4088;

// All the memory there is: the campaign's, and for what is read and written.
fn main(rt: HostRuntime) {
    let mut bytes: [u8; BUFFER] = [0; BUFFER];
    let mut out: [u8; BUFFER] = [0; BUFFER];
    let mut store: [i32; STORE] = [0; STORE];
    let mut sums: [i64; PERIOD] = [0; PERIOD];
    let mut recording: [i32; NIGHT] = [0; NIGHT];
    let mut r: [i64; PERIOD] = [0; PERIOD];
    let mut mean: [i32; PERIOD] = [0; PERIOD];
    let mut room: [i64; ROOM] = [0; ROOM];
    let mut tags: [u16; PERIOD] = [0; PERIOD];
    let p = run(
        &rt,
        &mut bytes,
        &mut out,
        &mut store,
        &mut sums,
        &mut recording,
        &mut r,
        &mut mean,
        &mut room,
        &mut tags,
    );
    tell(&rt, word_for(p));
}
