// The lines of a difference, put into a lent buffer.
ghost use Rattle.std.specs.Prelude.{◌≡◌, [], ◌∷◌, ◌++◌, ◌+◌, ◌*◌, ◌<◌, ◌≤◌, length};
ghost use Rattle.spelling.specs.Spelling.{Put};
ghost use Rattle.differing.specs.Fields.{hex};
ghost use Rattle.comparing.specs.Rows.{code_text, field_line, row_text, rows_text, fields_text, part_text};
ghost use Rattle.comparing.specs.Lines.{place_text, id_text, kind_line};

use crate::rows::{content, name, of_kind};
use spelling::{put, put_decimal, put_hex, put_pin_or_dash};

// One byte.
fn put_byte(out: &mut [u8], at: usize, b: u8) -> usize
    requires { at + 1 ≤ length out.old }
    ensures { Put out.old at (b ∷ []) result out.new }
{
    put(out, at, &[b])
}

// `-` and what ends the field.
fn put_dash(out: &mut [u8], at: usize, end: u8) -> usize
    requires { at + 2 ≤ length out.old }
    ensures { Put out.old at (45 ∷ end ∷ []) result out.new }
{
    put(out, at, &[45, end])
}

// An offset and a tab, or `-` for the missing one.
fn put_place(out: &mut [u8], at: usize, place: Option<usize>) -> usize
    requires { at + 9 ≤ length out.old }
    ensures { Put out.old at (place_text place ++ 9 ∷ []) result out.new × (result ≤ at + 9) }
{
    let Some(offset) = place else {
        return put_dash(out, at, 9);
    };
    let a = put_decimal(out, at, offset);
    put_byte(out, a, 9)
}

// An identifier, or `-` for the missing one, and what ends the field.
fn put_id(out: &mut [u8], at: usize, kind: Option<u8>, end: u8) -> usize
    requires { at + 3 ≤ length out.old }
    ensures { Put out.old at (id_text kind ++ end ∷ []) result out.new × (result ≤ at + 3) }
{
    let Some(id) = kind else {
        return put_dash(out, at, end);
    };
    let a = put_hex(out, at, id);
    put_byte(out, a, end)
}

// The line of two kinds, or of an element without a partner.
pub fn put_kind(
    out: &mut [u8],
    at: usize,
    a: Option<usize>,
    b: Option<usize>,
    k: Option<u8>,
    l: Option<u8>,
) -> usize
    requires { at + 60 ≤ length out.old }
    ensures { Put out.old at (kind_line a b k l) result out.new }
{
    let e = put_front(out, at, a, b);
    let f = put(out, e, b"kind\t");
    let g = put_id(out, f, k, 9);
    put_id(out, g, l, 10)
}

// `D` and both offsets, a tab behind each.
fn put_front(out: &mut [u8], at: usize, a: Option<usize>, b: Option<usize>) -> usize
    requires { at + 20 ≤ length out.old }
    ensures { Put out.old at (68 ∷ 9 ∷ [] ++ ((place_text a ++ 9 ∷ []) ++ (place_text b ++ 9 ∷ []))) result out.new
        × (result ≤ at + 20) }
{
    let e = put(out, at, b"D\t");
    let f = put_place(out, e, a);
    put_place(out, f, b)
}

// A content and what ends the field.
fn put_content(out: &mut [u8], at: usize, v: usize, end: u8) -> usize
    requires { (at + 9 ≤ length out.old) × (v < 16777472) }
    ensures { Put out.old at (code_text v ++ end ∷ []) result out.new × (result ≤ at + 9) }
{
    if v < 16777216 {
        let a = put_decimal(out, at, v);
        return put_byte(out, a, end);
    }
    let a = put_pin_or_dash(out, at, ((v - 16777216) % 256) as u8);
    put_byte(out, a, end)
}

// The line of row i.
fn put_field(out: &mut [u8], at: usize, a: usize, b: usize, i: usize, v: usize, w: usize) -> usize
    requires { (at + 68 ≤ length out.old) × (a ≤ 4096) × (b ≤ 4096) × (i < 59) × (v < 16777472) × (w < 16777472) }
    ensures { Put out.old at (field_line a b i v w) result out.new }
{
    let e = put_front(out, at, Some(a), Some(b));
    let f = put(out, e, name(i));
    let g = put_byte(out, f, 9);
    let h = put_content(out, g, v, 9);
    put_content(out, h, w, 10)
}

// The line of row i, if its contents differ.
fn put_row(out: &mut [u8], at: usize, one: &[u8], two: &[u8], a: usize, b: usize, i: usize) -> usize
    requires { (at + 68 ≤ length out.old) × (a ≤ 4096) × (b ≤ 4096) × (i < 59) }
    ensures { Put out.old at (row_text one.now two.now a b i) result out.new }
{
    let v = content(one, a, i);
    let w = content(two, b, i);
    if v == w {
        return at;
    }
    put_field(out, at, a, b, i, v, w)
}

// The lines of n rows.
pub fn put_rows(
    out: &mut [u8],
    at: usize,
    one: &[u8],
    two: &[u8],
    a: usize,
    b: usize,
    from: usize,
    n: usize,
) -> usize
    requires { (at + length (rows_text one.now two.now a b from n) + 68 ≤ length out.old) × (a ≤ 4096) × (b ≤ 4096)
        × (from + n ≤ 59) }
    ensures { Put out.old at (rows_text one.now two.now a b from n) result out.new }
{
    let mut end = at;
    for i in from..from + n {
        end = put_row(out, end, one, two, a, b, i);
    }
    end
}

// The lines of an identifier's rows.
pub fn put_fields(
    out: &mut [u8],
    at: usize,
    one: &[u8],
    two: &[u8],
    a: usize,
    b: usize,
    id: usize,
) -> usize
    requires { (at + length (fields_text one.now two.now a b id) + 68 ≤ length out.old) × (a ≤ 4096) × (b ≤ 4096) × (id < 15) }
    ensures { Put out.old at (fields_text one.now two.now a b id) result out.new }
{
    let kind = of_kind(id);
    let first = usize::from(kind.0);
    let count = usize::from(kind.1);
    let placed = usize::from(kind.2);
    let e = put_rows(out, at, one, two, a, b, 0, placed);
    put_rows(out, e, one, two, a, b, first, count)
}

// Bytes in capital hex digits.
fn put_bytes(out: &mut [u8], at: usize, p: &[u8]) -> usize
    requires { at + 2 * length p.now ≤ length out.old }
    ensures { Put out.old at (hex p.now) result out.new }
{
    let mut end = at;
    for b in p {
        end = put_hex(out, end, *b);
    }
    end
}

// The same, and what ends the field.
fn put_ended(out: &mut [u8], at: usize, p: &[u8], end: u8) -> usize
    requires { at + 2 * length p.now < length out.old }
    ensures { Put out.old at (hex p.now ++ end ∷ []) result out.new }
{
    let e = put_bytes(out, at, p);
    put_byte(out, e, end)
}

// The line of two variable parts.
pub fn put_part(out: &mut [u8], at: usize, a: usize, b: usize, p: &[u8], q: &[u8]) -> usize
    requires { (at + length (part_text a b p.now q.now) + 68 ≤ length out.old) × (a ≤ 4096) × (b ≤ 4096) }
    ensures { Put out.old at (part_text a b p.now q.now) result out.new }
{
    if p == q {
        return at;
    }
    let e = put_front(out, at, Some(a), Some(b));
    let f = put(out, e, b"variable part\t");
    let g = put_ended(out, f, p, 9);
    put_ended(out, g, q, 10)
}
