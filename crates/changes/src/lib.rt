// The lines of salvage as text in a lent buffer, one a change: old offset, number of the rule, `left out` or `cleared`.
#![tactic(auto)]

ghost use Rattle.std.specs.Prelude.{◌+◌, ◌≤◌, length};
ghost use Rattle.changes.specs.Written.{PutsChange, PutsLine, Noted, PutsLines};

use fates::Note;
use spelling::{put, put_decimal};

// The lines of the changes at the front of the buffer; gives their length.
pub fn put_lines(log: &[Note], out: &mut [u8; 32768]) -> usize
    requires { Noted log.now }
    ensures { PutsLines log.now out.old result out.new }
{
    let mut end = 0;
    for change in log {
        end = put_line(out, end, *change);
    }
    end
}

// One line.
fn put_line(out: &mut [u8], at: usize, change: Note) -> usize
    requires { at + 27 ≤ length out.old }
    ensures { PutsLine out.old at change result out.new }
{
    let a = put_decimal(out, at, usize::from(change.place));
    let b = put(out, a, b"\t");
    let c = put_decimal(out, b, usize::from(change.number));
    put_change(out, c, change.cleared)
}

fn put_change(out: &mut [u8], at: usize, cleared: bool) -> usize
    requires { at + 10 ≤ length out.old }
    ensures { PutsChange out.old at cleared result out.new }
{
    if cleared {
        return put(out, at, b"\tcleared\n");
    }
    put(out, at, b"\tleft out\n")
}
