// A table that comes in pieces, cut anywhere: start, piece, end, over a state that is lent to each call. What it keeps of the bytes
// gone by is told beside `Lent` (ending/specs/Stands): numbers, the description's bytes, of the element under way the first 30 bytes,
// and by zone and string number whether it is declared, whether it is named, and where first.
#![tactic(auto)]

ghost use Rattle.format.specs.Answers.{fault_of};
ghost use Rattle.ending.specs.Stopped.{ended};
ghost use Rattle.std.specs.Prelude.{◌≡◌, ◌+◌, ◌<◌, ◌≤◌, length};
ghost use Rattle.format.specs.Answers.{value_of};
ghost use Rattle.pass.specs.Tracks.{flags};
ghost use Rattle.states.specs.Numbers.{number};
ghost use Rattle.ending.specs.Stands.{lent};
ghost use Rattle.receiving.specs.Receiving.{LeadIs, ReadyIs, ReceiveIs, StartIs, PieceIs, EndIs};

use closing::Way;
use ending::{Numbers, Stop};
use format::answers::Rule;
use format::settings::Settings;
use naming::Places;
use pass::Marks;

// Begins with no byte. Flags and places are cleared when the first element begins.
pub fn start(n: &mut [usize; 16], first: &mut [u8; 30], head: &mut [u8; 30], settings: Settings)
    ensures { StartIs settings n.new first.new head.new }
{
    let code = states::code_of(settings);
    *n = [0, code, 0, 0, 0, 0, 0, 0, 0, 0, 0, 0, 0, 0, 0, 0];
    *first = [0; 30];
    *head = [0; 30];
}

// The bytes of a piece that belong to the description, kept, and how many.
fn lead(first: &mut [u8; 30], count: usize, q: &[u8]) -> usize
    requires { (16 ≤ count + length q.now) × (count + length q.now ≤ 4097) }
    ensures { LeadIs first.old count q.now result first.new }
{
    if 16 <= count {
        return 0;
    }
    let end = 16 - count;
    underway::keep_each(first, count, &q[0..end]);
    end
}

// Where the pass is before the elements of a piece.
fn ready(n: &[usize; 16], first: &[u8; 30], count: usize, settings: Settings) -> Way
    ensures { ReadyIs settings n.now first.now count result }
{
    if count < 16 {
        return advancing::open(first, settings);
    }
    states::way_of(n)
}

// At least one byte, and no more than there is room for.
fn receive(
    n: &mut [usize; 16],
    first: &mut [u8; 30],
    head: &mut [u8; 30],
    zs: &mut [bool; 256],
    ss: &mut [bool; 256],
    zu: &mut [bool; 256],
    su: &mut [bool; 256],
    zp: &mut [u16; 256],
    sp: &mut [u16; 256],
    q: &[u8],
)
    requires { (number n.old 0 ≡ 0) × (number n.old 2 + length q.now ≤ 4097) }
    ensures { ReceiveIs (lent n.old first.old head.old
        (flags zs.old ss.old zu.old su.old) zp.old sp.old)
        q.now (lent n.new first.new head.new
        (flags zs.new ss.new zu.new su.new) zp.new sp.new) }
{
    let count = n[2];
    let code = n[1];
    let total = count + q.len();
    if total < 16 {
        underway::keep_each(first, count, q);
        let way = states::way_of(n);
        states::put(n, 0, code, total, way);
        return;
    }
    let settings = states::settings_of(code);
    let from = lead(first, count, q);
    let before = ready(n, first, count, settings);
    let mut marks = Marks {
        zones: zs,
        strings: ss,
        zone_uses: zu,
        string_uses: su,
    };
    let mut places = Places {
        zones: zp,
        strings: sp,
    };
    let way = advancing::advance(
        before,
        count <= 16,
        &q[from..],
        first[4],
        head,
        &mut marks,
        &mut places,
        settings,
    );
    states::put(n, 0, code, total, way);
}

// A piece of any number of bytes; 20 after the end. More than 4,096 bytes are no table, and those past the 4,097th are skipped.
pub fn piece(
    n: &mut [usize; 16],
    first: &mut [u8; 30],
    head: &mut [u8; 30],
    zs: &mut [bool; 256],
    ss: &mut [bool; 256],
    zu: &mut [bool; 256],
    su: &mut [bool; 256],
    zp: &mut [u16; 256],
    sp: &mut [u16; 256],
    p: &[u8],
) -> Result<(), Rule>
    ensures { PieceIs (lent n.old first.old head.old
        (flags zs.old ss.old zu.old su.old) zp.old sp.old)
        p.now (fault_of result) (lent n.new first.new head.new
        (flags zs.new ss.new zu.new su.new) zp.new sp.new) }
{
    if n[0] != 0 {
        return Err(Rule::AfterTheEnd);
    }
    let count = n[2];
    let quiet = n[15];
    if (p.len() == 1) & (count < quiet) {
        if single::plain(p[0]) {
            single::lengthen(n, head, count, quiet, p[0]);
            return Ok(());
        }
    }
    if 4096 < count {
        return Ok(());
    }
    if p.len() == 0 {
        return Ok(());
    }
    let end = p.len().min(4097 - count);
    // A pass that is stopped stays so, and the bytes are only counted.
    if (16 < count) & (n[3] != 0) {
        n[2] = count + end;
        return Ok(());
    }
    if (p.len() == 1) & (16 < count) {
        if single::byte(n, head, p[0]) {
            return Ok(());
        }
        receive(n, first, head, zs, ss, zu, su, zp, sp, &p[0..1]);
        return Ok(());
    }
    receive(n, first, head, zs, ss, zu, su, zp, sp, &p[0..end]);
    Ok(())
}

// An answer whose place two bytes can hold, as the place in any table can.
fn bounded(a: Result<usize, Stop>) -> Result<usize, Stop>
    ensures { (value_of (ended result) ≤ 65535) × (value_of (ended a) ≤ 65535 → ended result ≡ ended a) }
{
    match a {
        Ok(k) => Ok(k % 65536),
        Err(stop) => Err(Stop {
            number: stop.number,
            place: stop.place % 65536,
        }),
    }
}

// The end: what the whole reading answers, once; then 20 at 0.
pub fn end(
    n: &mut [usize; 16],
    first: &[u8; 30],
    zs: &[bool; 256],
    ss: &[bool; 256],
    zu: &[bool; 256],
    su: &[bool; 256],
    zp: &[u16; 256],
    sp: &[u16; 256],
) -> Result<usize, Stop>
    ensures { EndIs n.old first.now
        (flags zs.now ss.now zu.now su.now) zp.now sp.now (ended result)
        n.new }
{
    if n[0] != 0 {
        return Err(Stop {
            number: Rule::AfterTheEnd.number(),
            place: 0,
        });
    }
    let numbers = Numbers {
        zones: zs,
        strings: ss,
        zone_uses: zu,
        string_uses: su,
        zone_places: zp,
        string_places: sp,
    };
    let answer = ending::verdict(n, first, &numbers);
    n[0] = 1;
    bounded(answer)
}
