// One turn of the program: what stands at its place, done to the memory lent, and its text.
ghost use Rattle.std.specs.Prelude.{◌≡◌, true, ◌^◌, ◌≤◌, ◌<◌, length, Some, IfSome};
ghost use Rattle.logitems.specs.Phases.{may_stand};
ghost use Rattle.logitems.specs.Log.{kind_of};
ghost use Rattle.logitems.specs.declared.Found.TheVariants.{Bad};
ghost use Rattle.logeffects.specs.Book.{Memory, memory, day_length, applied};
ghost use Rattle.logprogram.specs.Program.{first_memory, first_place, took, turn_on, turn, place_of, stopped_mark, turn_of};

use crate::writing::{write_bad, write_lines};
use crate::{Bookmark, Turned};
use logeffects::applying::{apply, day_length, unbegun};
use logitems::decoding::decode;
use logitems::phases::goes_on;
use logitems::{Found, Item};

// Before the first item.
pub fn first_mark() -> Bookmark
    ensures { place_of result first_memory ≡ first_place }
{
    Bookmark {
        book: unbegun(),
        offset: 0,
        going: true,
    }
}

// The same place, and the program stops there.
pub fn stop(mark: Bookmark) -> Bookmark
    ensures { result ≡ stopped_mark mark }
{
    Bookmark {
        going: false,
        ..mark
    }
}

// A whole item that may stand there is applied, and its lines are written.
fn take_item(
    mark: Bookmark,
    item: Item,
    size: usize,
    store: &mut [i32],
    sums: &mut [i64],
    recording: &mut [i32],
    r: &mut [i64],
    mean: &mut [i32],
    room: &mut [i64],
    tags: &mut [u16],
    out: &mut [u8],
) -> Turned
    requires item_value { may_stand mark.book.phase (day_length mark.book.campaign.order) (kind_of item) ≡ true }
    requires size_bound { (size ≤ 5) × (mark.offset < 2 ^ 63) × (511 ≤ length r.old) × (511 ≤ length mean.old) × (65536 ≤ length out.old) }
    ensures out_after { turn_of mark (Some result) (memory store.new sums.new recording.new r.new mean.new room.new tags.new) out.new
        ≡ took mark.offset size (applied mark.book item (memory store.old sums.old recording.old r.old mean.old room.old tags.old)) }
    ensures length_in_bounds { result.length ≤ length out.new }
{
    let done = apply(mark.book, item, store, sums, recording, r, mean, room, tags);
    let length = write_lines(done.line, done.rows, r, mean, out);
    Turned {
        mark: Bookmark {
            book: done.book,
            offset: mark.offset + size as u64,
            going: goes_on(done.book.phase),
        },
        used: size,
        length,
    }
}

// Nothing is printed, no byte is taken, and the program stops.
fn end(mark: Bookmark) -> Turned
    ensures { result ≡ record { mark = stopped_mark mark; used = 0; length = 0 } }
{
    Turned {
        mark: stop(mark),
        used: 0,
        length: 0,
    }
}

// `bad` and the offset, and the program stops.
pub fn bad(mark: Bookmark, out: &mut [u8]) -> Turned
    requires { 128 ≤ length out.old }
    ensures { ((m : Memory) → turn_of mark (Some result) m out.new ≡ turn_on (place_of mark m) Bad) × (result.length ≤ length out.new) }
{
    let length = write_bad(mark.offset, out);
    Turned {
        mark: stop(mark),
        used: 0,
        length,
    }
}

// What stands at the place: an item, the end, something bad, or none where the bytes are too few to tell. The bytes are those at hand from it on. The
// memory is lent piece by piece, as `apply` takes it.
pub fn take_turn(
    mark: Bookmark,
    bytes: &[u8],
    ended: bool,
    store: &mut [i32],
    sums: &mut [i64],
    recording: &mut [i32],
    r: &mut [i64],
    mean: &mut [i32],
    room: &mut [i64],
    tags: &mut [u16],
    out: &mut [u8],
) -> Option<Turned>
    requires { (mark.offset < 2 ^ 63) × (511 ≤ length r.old) × (511 ≤ length mean.old) × (65536 ≤ length out.old) }
    ensures out_after { turn_of mark result (memory store.new sums.new recording.new r.new mean.new room.new tags.new) out.new
        ≡ turn (place_of mark (memory store.old sums.old recording.old r.old mean.old room.old tags.old)) bytes.now ended }
    ensures length_in_bounds { IfSome result (λ t. t.length ≤ length out.new) }
{
    let book = mark.book;
    let period = day_length(book.campaign.order);
    match decode(book.phase, period, bytes, ended) {
        Found::Whole(item, size) => Some(take_item(
            mark, item, size, store, sums, recording, r, mean, room, tags, out,
        )),
        Found::Short => None,
        Found::Bad => Some(bad(mark, out)),
        Found::End => Some(end(mark)),
    }
}
