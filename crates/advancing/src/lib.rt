// The pass from its first byte on: it opens where the description is whole, its flags are cleared where the first element begins, and
// numbers that no pass has are left alone.
#![tactic(auto)]

ghost use Rattle.std.specs.Prelude.{true, false};
ghost use Rattle.format.specs.Slots.{byte};
ghost use Rattle.format.specs.Decode.{read_description};
ghost use Rattle.pass.specs.Tracks.{flags_of, Same};
ghost use Rattle.naming.specs.Naming.{SamePlaces};
ghost use Rattle.advancing.specs.Advancing.{Fresh, SoundIs, ClearIs, GoIs, AdvanceIs};

use closing::Way;
use format::settings::Settings;
use naming::Places;
use pass::{Marks, State};

// The description is whole: it breaks a rule, or the pass begins at 16.
pub fn open(first: &[u8; 30], settings: Settings) -> Way
    ensures { Fresh settings (read_description settings.chip (byte first.now)) result }
{
    let f = &first[..];
    let chip = settings.chip;
    let d = fields::description(f, chip);
    let fault = rules::fault(rules::description_breaks(d, chip));
    let state = State {
        count: 0,
        zones: 0,
        held: claims::first_claims(d),
        last: 0,
    };
    if fault != 0 {
        return closing::broken(fault, 0, state);
    }
    closing::broken(0, 16, state)
}

// Numbers that the pass can go on from with so many bytes. Those of every state that the calls give are such.
fn sound(w: Way, more: usize) -> bool
    ensures { SoundIs w more result }
{
    if 4097 < w.at {
        return false;
    }
    let u = w.under;
    if 4097 - w.at < u.len {
        return false;
    }
    let s = w.state;
    (more <= 4097 - w.at - u.len) & (u.at <= 10000) & (s.count <= 96) & (s.zones <= 12)
}

// Before the first element all flags and places are cleared, but for the description's string index.
fn clear(fresh: bool, string: u8, marks: &mut Marks, places: &mut Places)
    ensures clears { ClearIs fresh string (flags_of marks.old)
        places.old.zones.now places.old.strings.now (flags_of marks.new) places.new.zones.now places.new.strings.now }
    ensures same_places { SamePlaces places.old places.new }
    ensures same_arrays { Same marks.old marks.new }
{
    if !fresh {
        return;
    }
    *marks.zones = [false; 256];
    *marks.strings = [false; 256];
    *marks.zone_uses = [false; 256];
    *marks.string_uses = [false; 256];
    *places.zones = [0; 256];
    *places.strings = [0; 256];
    let n = usize::from(string);
    marks.string_uses[n] = true;
}

// At least one byte more of the elements.
fn go_on(
    w: Way,
    q: &[u8],
    head: &mut [u8; 30],
    marks: &mut Marks,
    places: &mut Places,
    settings: Settings,
) -> Way
    ensures goes { GoIs settings w q.now head.old
        (flags_of marks.old) places.old.zones.now places.old.strings.now result
        head.new (flags_of marks.new) places.new.zones.now places.new.strings.now }
    ensures same_places { SamePlaces places.old places.new }
    ensures same_arrays { Same marks.old marks.new }
{
    let m = q.len();
    if !sound(w, m) {
        return w;
    }
    passing::pass_on(w, q, head, marks, places, settings)
}

// Bytes of elements, the first of all or more of them.
pub fn advance(
    w: Way,
    fresh: bool,
    q: &[u8],
    string: u8,
    head: &mut [u8; 30],
    marks: &mut Marks,
    places: &mut Places,
    settings: Settings,
) -> Way
    ensures advances { AdvanceIs settings w fresh q.now string head.old
        (flags_of marks.old) places.old.zones.now places.old.strings.now result
        head.new (flags_of marks.new) places.new.zones.now places.new.strings.now }
    ensures same_places { SamePlaces places.old places.new }
    ensures same_arrays { Same marks.old marks.new }
{
    if q.len() == 0 {
        return w;
    }
    if w.stop != 0 {
        return w;
    }
    clear(fresh, string, marks, places);
    go_on(w, q, head, marks, places, settings)
}
