// A line of wool as text: name, micron, lots.
ghost use Rattle.std.specs.Prelude.{◌≡◌, ◌+◌, ◌*◌, ◌≤◌, not, ltb, length};
ghost use Rattle.std.specs.List.{list_all};
ghost use Rattle.base.specs.Put.{put_at};
ghost use Rattle.rows.specs.Lines.{ordinary, can_end, solid_ends, is_bare, twice, doubled, name_text, glyph, tail_text, line_text, written_length, written_into};

use crate::scan::Sort;

// The text of a line of wool at the front of the lent buffer, which has room for twice the name and 11 bytes more; gives its length. Where
// there is less room it gives none and leaves the buffer as it was.
pub fn write_line(name: &[u8], reading: u32, lots: u32, out: &mut [u8]) -> Option<usize>
    ensures { (result ≡ written_length name.entry.now (length out.old) (line_text (record { name = name.entry.now; reading = reading; lots = lots }))) × (out.new ≡ written_into name.entry.now out.old (line_text (record { name = name.entry.now; reading = reading; lots = lots }))) }
{
    if !has_room(name.len(), out.len()) {
        return None;
    }
    let at = put_name(name, out);
    Some(put_tail(reading, lots, out, at))
}

// The same of its name alone.
pub fn write_name(name: &[u8], out: &mut [u8]) -> Option<usize>
    ensures { (result ≡ written_length name.now (length out.old) (name_text name.now)) × (out.new ≡ written_into name.now out.old (name_text name.now)) }
{
    if !has_room(name.len(), out.len()) {
        return None;
    }
    Some(put_name(name, out))
}

// Whether there is room for twice the name and 11 bytes more.
fn has_room(length: usize, room: usize) -> bool
    ensures { result ≡ not (ltb room (2 * length + 11)) }
{
    room >= 11 && length <= (room - 11) / 2
}

// The name at the front, in quotes where it needs them; gives the place after it.
fn put_name(name: &[u8], out: &mut [u8]) -> usize
    requires { 2 * length name.now + 11 ≤ length out.old }
    ensures { (result ≡ length (name_text name.now)) × (result ≤ 2 * length name.now + 2) × (out.new ≡ put_at out.old 0 (name_text name.now)) }
{
    if is_bare(name) {
        base::put(out, 0, name);
        return name.len();
    }
    out[0] = b'"';
    let at = put_doubled(name, out);
    out[at] = b'"';
    at + 1
}

// The name from place 1 on, each quote twice; gives the place after it.
fn put_doubled(name: &[u8], out: &mut [u8]) -> usize
    requires { 2 * length name.now + 11 ≤ length out.old }
    ensures { (result ≡ 1 + length (doubled name.now)) × (result ≤ 1 + 2 * length name.now) × (out.new ≡ put_at out.old 1 (doubled name.now)) }
{
    let mut at = 1;
    for b in name {
        at = put_twice(*b, out, at);
    }
    at
}

// A byte, or a quote twice; gives the place after it.
fn put_twice(b: u8, out: &mut [u8], at: usize) -> usize
    requires { at + 2 ≤ length out.old }
    ensures { (result ≡ at + length (twice b)) × (result ≤ at + 2) × (out.new ≡ put_at out.old at (twice b)) }
{
    out[at] = b;
    if b == b'"' {
        out[at + 1] = b;
        return at + 2;
    }
    at + 1
}

// Micron and lots at a place; gives the place after them.
fn put_tail(reading: u32, lots: u32, out: &mut [u8], at: usize) -> usize
    requires { at + 9 ≤ length out.old }
    ensures { (result ≡ at + length (tail_text reading lots)) × (out.new ≡ put_at out.old at (tail_text reading lots)) }
{
    let a = glyph(reading / 100);
    let b = glyph(reading / 10);
    let c = glyph(reading);
    let d = glyph(lots);
    if lots < 10 {
        base::put(out, at, &[b',', a, b, b'.', c, b',', d, b'\n']);
        return at + 8;
    }
    let e = glyph(lots / 10);
    base::put(out, at, &[b',', a, b, b'.', c, b',', e, d, b'\n']);
    at + 9
}

// The last digit of a number.
fn glyph(x: u32) -> u8
    ensures { result ≡ glyph x }
{
    (48 + x % 10) as u8
}

// Whether a name needs no quotes.
#[tactic(auto, using(crate::specs::Lines::Laws::bare_ends))]
fn is_bare(name: &[u8]) -> bool
    ensures { result ≡ is_bare name.now }
{
    has_solid_ends(name) && is_ordinary(name)
}

// Whether each byte can stand in a name without quotes, but for its ends.
fn is_ordinary(name: &[u8]) -> bool
    ensures { result ≡ list_all ordinary name.now }
{
    name.iter().all(|b| *b == b' ' || Sort::of(*b).is_solid())
}

fn has_solid_ends(name: &[u8]) -> bool
    ensures { result ≡ solid_ends name.now }
{
    can_end(name.first().copied()) && can_end(name.last().copied())
}

// Whether there is such a byte, and it can stand at either end of a name without quotes.
fn can_end(b: Option<u8>) -> bool
    ensures { result ≡ can_end b }
{
    match b {
        Some(b) => Sort::of(b).is_solid(),
        None => false,
    }
}
