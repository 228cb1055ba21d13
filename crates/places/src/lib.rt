// Where the fields of a record stand: their starts and their lengths in the caller's bytes, found in one walk. Whoever needs
// a field of what was read takes it from there. No call has a `requires`.
#![tactic(auto)]

ghost use Rattle.std.specs.Prelude.{◌≡◌};
ghost use Rattle.text.specs.Part.{NoPart};
ghost use Rattle.places.specs.Places.{places_of, IsPartAt, IsFieldAt};

// No kind has more fields.
pub const MOST: usize = 7;

// How many fields there are, 8 where there are more than seven; and the starts and the lengths of the first seven, from left
// to right; 0 where there is no more field.
#[derive(Clone, Copy)]
pub struct Places {
    pub count: usize,
    pub starts: [usize; 7],
    pub lens: [usize; 7],
}

// The places of the fields of a body: of its parts but for the first, which is the kind's name.
pub fn places_of(mark: u8, body: &[u8]) -> Places
    ensures { result ≡ places_of mark body.now }
{
    let mut places = Places {
        count: 0,
        starts: [0; 7],
        lens: [0; 7],
    };
    let mut start = frame::next_mark(mark, body, 0) + 1;
    for j in 0..MOST {
        if body.len() <= start {
            return places;
        }
        let end = frame::next_mark(mark, body, start);
        places.starts[j] = start;
        places.lens[j] = end - start;
        places.count += 1;
        start = end + 1;
    }
    if start < body.len() {
        places.count += 1;
    }
    places
}

// No part: an empty one, at the front of s.
fn none_of<'a>(s: &'a [u8]) -> &'a [u8]
    ensures { NoPart s.entry result }
{
    &s[0..0]
}

// The part of s that stands at place j, from 0; an empty one at the front of s where there is no such place, or where it is
// none of s.
pub fn part_at<'a>(s: &'a [u8], starts: &[usize; 7], lens: &[usize; 7], j: usize) -> &'a [u8]
    ensures { IsPartAt s.entry starts.now lens.now j result }
{
    if MOST <= j {
        return none_of(s);
    }
    let start = starts[j];
    let len = lens[j];
    if s.len() < start || s.len() - start < len {
        return none_of(s);
    }
    &s[start..start + len]
}

// The field of this number, from 1 as document 01 counts; an empty part at the front of s where there is none.
pub fn field_at<'a>(s: &'a [u8], starts: &[usize; 7], lens: &[usize; 7], number: usize) -> &'a [u8]
    ensures { IsFieldAt s.entry starts.now lens.now number result }
{
    if number == 0 {
        return none_of(s);
    }
    part_at(s, starts, lens, number - 1)
}
