// What an item prints, one text behind another.
ghost use Rattle.std.specs.Prelude.{◌++◌, ◌+◌, ◌*◌, ◌≤◌, length, take};
ghost use Rattle.report.specs.Lines.{line_bytes, bad_bytes, Wrote};
ghost use Rattle.logprogram.specs.Program.{rows_bytes};

use report::printing::{bad_text, line_text, put_word, row_text};
use report::{Line, Text};

fn put_text(text: Text, out: &mut [u8], at: usize) -> usize
    requires { (text.length ≤ 128) × (at + 128 ≤ length out.old) }
    ensures { Wrote (take text.length text.bytes) at out.old result out.new × (result ≤ at + 128) }
{
    put_word(&text.bytes[..text.length], out, at)
}

// The first lines of a response.
fn put_rows(rows: usize, r: &[i64], mean: &[i32], out: &mut [u8], at: usize) -> usize
    requires { (rows ≤ length r.now) × (rows ≤ length mean.now) × (at + 128 * rows ≤ length out.old) }
    ensures { Wrote (rows_bytes rows r.now mean.now) at out.old result out.new }
{
    let mut next = at;
    for k in 0..rows {
        next = put_text(row_text(k as u64, r[k], i64::from(mean[k])), out, next);
    }
    next
}

// An item's line, and those that follow it.
pub fn write_lines(line: Line, rows: usize, r: &[i64], mean: &[i32], out: &mut [u8]) -> usize
    requires { (rows ≤ length r.now) × (rows ≤ length mean.now) × (128 + 128 * rows ≤ length out.old) }
    ensures { Wrote (line_bytes line ++ rows_bytes rows r.now mean.now) 0 out.old result out.new }
{
    let next = put_text(line_text(line), out, 0);
    put_rows(rows, r, mean, out, next)
}

// `bad` and the offset.
pub fn write_bad(offset: u64, out: &mut [u8]) -> usize
    requires { 128 ≤ length out.old }
    ensures { Wrote (bad_bytes offset) 0 out.old result out.new }
{
    put_text(bad_text(offset), out, 0)
}
