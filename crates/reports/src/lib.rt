// `receiving` for the C face: an answer leaves as one number, the number of 'What comes back' and 256 times what stands beside it, and
// settings come as one number, as in `esa`, which hands its calls on to these.
#![tactic(auto)]

ghost use Rattle.std.specs.Prelude.{◌≡◌, ◌+◌, ◌*◌, ◌≤◌};
ghost use Rattle.format.specs.Answers.{fault_of, value_of};
ghost use Rattle.ending.specs.Stopped.{ended};
ghost use Rattle.pass.specs.Tracks.{flags};
ghost use Rattle.states.specs.Numbers.{settings_of};
ghost use Rattle.ending.specs.Stands.{lent};
ghost use Rattle.receiving.specs.Receiving.{PieceIs};
ghost use Rattle.reports.specs.Face.{packed as packed_of, StartedFor, EndedFor};

use ending::Stop;
use format::answers::Rule;

// Begins with no byte, for the chip and by the rules of the settings: 0.
pub fn start(n: &mut [usize; 16], first: &mut [u8; 30], head: &mut [u8; 30], settings: usize) -> u64
    ensures { StartedFor (settings_of settings) result n.new first.new head.new }
{
    receiving::start(n, first, head, states::settings_of(settings));
    0
}

// The next bytes: 0, or 20 after the end.
pub fn piece(
    n: &mut [usize; 16],
    first: &mut [u8; 30],
    head: &mut [u8; 30],
    zs: &mut [bool; 256],
    ss: &mut [bool; 256],
    zu: &mut [bool; 256],
    su: &mut [bool; 256],
    zp: &mut [u16; 256],
    sp: &mut [u16; 256],
    piece: &[u8],
) -> u64
    ensures { PieceIs (lent n.old first.old head.old
        (flags zs.old ss.old zu.old su.old) zp.old sp.old)
        piece.now result (lent n.new first.new head.new
        (flags zs.new ss.new zu.new su.new) zp.new sp.new) }
{
    after_piece(receiving::piece(n, first, head, zs, ss, zu, su, zp, sp, piece))
}

// No more bytes come: beside 0 stands the number of elements, beside a refusal its place.
pub fn end(
    n: &mut [usize; 16],
    first: &[u8; 30],
    zs: &[bool; 256],
    ss: &[bool; 256],
    zu: &[bool; 256],
    su: &[bool; 256],
    zp: &[u16; 256],
    sp: &[u16; 256],
) -> u64
    ensures { EndedFor n.old first.now
        (flags zs.now ss.now zu.now su.now) zp.now sp.now result
        n.new }
{
    packed(receiving::end(n, first, zs, ss, zu, su, zp, sp))
}

// 0, or the number of the rule.
fn after_piece(taken: Result<(), Rule>) -> u64
    ensures { result ≡ fault_of taken }
{
    match taken {
        Ok(()) => 0,
        Err(rule) => rule.number() as u64,
    }
}

fn pack(number: u8, beside: usize) -> u64
    requires { beside ≤ 65535 }
    ensures { result ≡ number + 256 * beside }
{
    (number as u64) + 256 * (beside as u64)
}

fn packed(a: Result<usize, Stop>) -> u64
    requires { value_of (ended a) ≤ 65535 }
    ensures { result ≡ packed_of (ended a) }
{
    match a {
        Ok(k) => pack(0, k),
        Err(stop) => pack(stop.number, stop.place),
    }
}
