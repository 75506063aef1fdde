// 13 and 14 as second walks over the elements of a table that the pass came through: where the first one is that names a
// number which is not declared.
#![tactic(auto)]

ghost use Rattle.std.specs.Prelude.{◌≡◌, List, ◌∷◌, ℕ};
ghost use Rattle.format.specs.ZonesAndStrings.{Role, zone_named, string_named, all_among, zones, strings, first_naming};
ghost use Rattle.format.specs.declared.settings.Settings.{Settings};
ghost use Rattle.flags.specs.Marks.{Marks};
ghost use Rattle.places.specs.Walks.{RoleBytes, Walkable, names_of, nameable, or_zero};

use walking::Places;

// Whether the zone that the element at a place names is marked.
fn zone_marked(t: &[u8], at: usize, marks: &[bool; 256]) -> bool
    requires { (x : Role) × RoleBytes t.now at x }
    ensures { (x : Role) (ns : List ℕ) → RoleBytes t.now at x → Marks marks.now ns → result
        ≡ all_among (zone_named x) ns }
{
    let id = t[at];
    if id == 11 {
        return true;
    }
    if id == 12 {
        return true;
    }
    let z = usize::from(t[at + 7]);
    marks[z]
}

// Whether the string that the element at a place names is marked; a string names none.
fn string_marked(t: &[u8], at: usize, marks: &[bool; 256]) -> bool
    requires { (x : Role) × RoleBytes t.now at x }
    ensures { (x : Role) (ns : List ℕ) → RoleBytes t.now at x → Marks marks.now ns → result
        ≡ all_among (string_named x) ns }
{
    let id = t[at];
    if id == 12 {
        return true;
    }
    if id == 11 {
        let s = usize::from(t[at + 4]);
        return marks[s];
    }
    let s = usize::from(t[at + 3]);
    marks[s]
}

// The zone, or the string.
pub fn marked(t: &[u8], at: usize, marks: &[bool; 256], zone: bool) -> bool
    requires { (x : Role) × RoleBytes t.now at x }
    ensures { (x : Role) (ns : List ℕ) → RoleBytes t.now at x → Marks marks.now ns → result
        ≡ all_among (names_of zone x) ns }
{
    if zone {
        return zone_marked(t, at, marks);
    }
    string_marked(t, at, marks)
}

// The place of the first element whose zone, or whose string, is not marked; 0 where there is none.
fn unmarked(t: &[u8], marks: &[bool; 256], zone: bool) -> usize
    requires { (σ : Settings) × (w : Walkable σ t.now) × Marks marks.now (nameable zone w.rs) }
    ensures { (σ : Settings) (w : Walkable σ t.now) → Marks marks.now (nameable zone w.rs) → result
        ≡ or_zero (first_naming (names_of zone) (nameable zone w.rs) 16 w.rs) }
{
    for at in Places::of(t) {
        if !marked(t, at, marks, zone) {
            return at;
        }
    }
    0
}

// 13
pub fn zoneless(t: &[u8], marks: &[bool; 256]) -> usize
    requires { (σ : Settings) × (w : Walkable σ t.now) × Marks marks.now (zones w.rs) }
    ensures { (σ : Settings) (w : Walkable σ t.now) → Marks marks.now (zones w.rs) → result
        ≡ or_zero (first_naming zone_named (zones w.rs) 16 w.rs) }
{
    unmarked(t, marks, true)
}

// 14
pub fn nameless(t: &[u8], marks: &[bool; 256]) -> usize
    requires { (σ : Settings) × (w : Walkable σ t.now) × Marks marks.now (0 ∷ strings w.rs) }
    ensures { (σ : Settings) (w : Walkable σ t.now) → Marks marks.now (0 ∷ strings w.rs) → result
        ≡ or_zero (first_naming string_named (0 ∷ strings w.rs) 16 w.rs) }
{
    unmarked(t, marks, false)
}
