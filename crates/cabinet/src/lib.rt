// The centre's key cabinet: document 02, E8 to E11. 64 places of 1,024 bytes in 65,536 lent bytes; each is all zeros, or a public key that the rules up to E10 accept,
// zeros after it, the last TVP accepted for its module and in the last eight bytes the number of its Expiry, and no two records share Subject kind, Manufacturer and MID.
// Every call takes any bytes and asks first whether they are a cabinet; none has a `requires`.
#![tactic(auto)]

mod ages;
mod naming;
mod tvps;
mod writing;

ghost use Rattle.std.specs.Prelude.{◌≡◌, ℕ, ◌+◌, ◌-◌, ◌≤◌, ◌<◌, length};
ghost use Rattle.text.specs.Text.{every};
ghost use Rattle.shelf.specs.Cabinet.{decode, shelf, make_cabinet, put_key, remove_key, admit, find_key};
ghost use Rattle.cabinet.specs.Cabinet.{Files, counted, checked, FindSaid, FindPart};
ghost use Rattle.cabinet.specs.Steps.{is_zero, is_place, is_some, part_at, first_from, Among, Lowest, current_of, all_pass, has_names, is_place_at, is_free_at, is_held_at, alone_at, occupied_of, Sized, PlaceIn};

pub const PLACES: usize = 64;

// The bytes of a place, and of them all.
pub const WIDTH: usize = 1024;

pub const SIZE: usize = 65536;

// Where the last TVP begins in a place, behind the record and the zeros after it, and behind that the number of Expiry.
pub const TVP_AT: usize = 1000;

pub const NUMBER_AT: usize = 1016;

// What a call answers that changes a cabinet, or asks whether it is one: the number, and the field's number, 0 where none is named.
#[repr(C)]
#[derive(Clone, Copy)]
pub struct Filed {
    pub no: u8,
    pub field: u8,
}

// What is answered to how many places are occupied: the number, and how many, 0 with a refusal.
#[repr(C)]
#[derive(Clone, Copy)]
pub struct Counted {
    pub no: u8,
    pub count: usize,
}

fn file(no: u8, field: u8) -> Filed
    ensures { result ≡ record { no = no; field = field } }
{
    Filed { no, field }
}

// ---- one place

// All bytes are zeros. They are looked at to the end, because LLVM takes many at a time where no byte can end the loop.
fn are_zeros(s: &[u8]) -> bool
    ensures { result ≡ every is_zero s.now }
{
    let mut seen = 0u8;
    for byte in s {
        seen |= *byte;
    }
    seen == 0
}

// Whether the bytes are all zeros, or a public key, zeros after it, a TVP and the number of its Expiry: the record is what stands before the first zero.
fn is_place(place: &[u8]) -> bool
    requires { length place.now ≡ 1024 }
    ensures { result ≡ is_place (decode place.now) }
{
    let len = frame::next_mark(0, place, 0);
    if len == 0 {
        return are_zeros(place);
    }
    if TVP_AT < len || !are_zeros(&place[len..TVP_AT]) || !tvps::is_tvp(&place[TVP_AT..NUMBER_AT]) {
        return false;
    }
    let expiry = expiry::expiry_under(format::Rules::UpToE10, &place[0..len]);
    let number = text::seconds_bytes(expiry.seconds);
    expiry.no == numbers::ACCEPTED && text::are_same(&place[NUMBER_AT..], &number)
}

// Place i of a cabinet, from 0. That there are bytes for it (`Sized`, `PlaceIn`) the writers need too, of bytes that they change: a type for the readers alone
// would say it a second time.
fn place_at<'a>(cabinet: &'a [u8], i: usize) -> &'a [u8]
    requires { PlaceIn cabinet.now i }
    ensures { result.now ≡ part_at cabinet.now i }
{
    let start = i * WIDTH;
    let end = start + WIDTH;
    &cabinet[start..end]
}

// ---- all places

// The lowest place at or after `from` that passes the test.
fn lowest<F: Fn(usize) -> bool>(from: usize, passes: F) -> Option<usize>
    requires from_in_bounds { from ≤ 64 }
    requires callable { (i : ℕ) → i < 64 → F.pre passes i }
    ensures { Lowest (F.post passes) from result }
{
    for i in from..PLACES {
        if passes(i) {
            return Some(i);
        }
    }
    None
}

// The lowest place at or after `from` whose record has these names.
fn place_of(cabinet: &[u8], from: usize, names: &[u8]) -> Option<usize>
    requires { Sized cabinet.now × (from ≤ 64) }
    ensures { Among (first_from (has_names cabinet.now names.now) from) result }
{
    lowest(from, |i| naming::has_names(place_at(cabinet, i), names))
}

// The place of the record with these names, unless it is old.
fn current_of(cabinet: &[u8], names: &[u8]) -> Option<usize>
    requires { Sized cabinet.now }
    ensures { Among (current_of cabinet.now names.now) result }
{
    let its = place_of(cabinet, 0, names)?;
    if ages::is_old(place_at(cabinet, its)) {
        return None;
    }
    Some(its)
}

// Whether every place is all zeros or holds a record.
fn are_places(cabinet: &[u8]) -> bool
    requires { Sized cabinet.now }
    ensures { result ≡ all_pass (is_place_at cabinet.now) }
{
    for i in 0..PLACES {
        if !is_place(place_at(cabinet, i)) {
            return false;
        }
    }
    true
}

// Whether no later place shares the names of place i.
fn is_alone(cabinet: &[u8], i: usize) -> bool
    requires { PlaceIn cabinet.now i }
    ensures { result ≡ alone_at cabinet.now i }
{
    let place = place_at(cabinet, i);
    place[0] == 0 || place_of(cabinet, i + 1, naming::names_in(naming::subject_in(place))).is_none()
}

// Whether no two places share their names.
fn are_distinct(cabinet: &[u8]) -> bool
    requires { Sized cabinet.now }
    ensures { result ≡ all_pass (alone_at cabinet.now) }
{
    for i in 0..PLACES {
        if !is_alone(cabinet, i) {
            return false;
        }
    }
    true
}

fn is_cabinet(cabinet: &[u8]) -> bool
    ensures { result ≡ is_some (shelf cabinet.now) }
{
    if cabinet.len() != SIZE {
        return false;
    }
    are_places(cabinet) && are_distinct(cabinet)
}

// The lowest free place.
fn free_at(cabinet: &[u8]) -> Option<usize>
    requires { Sized cabinet.now }
    ensures { Among (first_from (is_free_at cabinet.now) 0) result }
{
    lowest(0, |i| cabinet[i * WIDTH] == 0)
}

// The lowest occupied place at or after `from`.
fn occupied_from(cabinet: &[u8], from: usize) -> Option<usize>
    requires { Sized cabinet.now × (from ≤ 64) }
    ensures { Among (first_from (is_held_at cabinet.now) from) result }
{
    lowest(from, |at| cabinet[at * WIDTH] != 0)
}

// How many places are occupied, each looked for behind the one before it: of a loop that looked at them all LLVM would make
// a wide one, with a constant.
fn occupied_in(cabinet: &[u8]) -> usize
    requires { Sized cabinet.now }
    ensures { result ≡ occupied_of cabinet.now 64 0 }
{
    let mut count = 0;
    let mut from = 0;
    while let Some(at) = occupied_from(cabinet, from) {
        count += 1;
        from = at + 1;
    }
    count
}

// ---- the calls

// Makes the lent bytes an empty cabinet: 23 where they are not SIZE.
pub fn make_cabinet(cabinet: &mut [u8]) -> Filed
    ensures { Files (make_cabinet cabinet.old) cabinet.new result }
{
    if cabinet.len() != SIZE {
        return file(numbers::NOT_CABINET, 0);
    }
    writing::fill(cabinet, &[]);
    file(numbers::ACCEPTED, 0)
}

// 0 where the bytes are a cabinet, and 23 where they are not.
pub fn check_cabinet(cabinet: &[u8]) -> Filed
    ensures { result ≡ checked cabinet.now }
{
    if !is_cabinet(cabinet) {
        return file(numbers::NOT_CABINET, 0);
    }
    file(numbers::ACCEPTED, 0)
}

// How many places are occupied.
pub fn count_keys(cabinet: &[u8]) -> Counted
    ensures { result ≡ counted cabinet.now }
{
    if !is_cabinet(cabinet) {
        return Counted {
            no: numbers::NOT_CABINET,
            count: 0,
        };
    }
    Counted {
        no: numbers::ACCEPTED,
        count: occupied_in(cabinet),
    }
}

// Puts a public key in. It replaces the one with the same Subject kind, Manufacturer and MID, in its place, where the TVP stays, and else takes the lowest free place, with
// 19930101T000000Z as TVP. 23 before all; the record's own numbers (another kind answers 2); 24 where its GNT is not later than that of the one it is to replace; 25 where no
// place is free.
pub fn put_key(cabinet: &mut [u8], record: &[u8]) -> Filed
    ensures { Files (put_key cabinet.old «record».now) cabinet.new result }
{
    if !is_cabinet(cabinet) {
        return file(numbers::NOT_CABINET, 0);
    }
    let expiry = expiry::expiry_of(record);
    if expiry.no != numbers::ACCEPTED {
        return file(expiry.no, expiry.field);
    }
    let number = text::seconds_bytes(expiry.seconds);
    let subject = naming::subject_in(record);
    if let Some(its) = place_of(cabinet, 0, naming::names_in(subject)) {
        if !naming::is_later_than(subject, place_at(cabinet, its)) {
            return file(numbers::NOT_LATER, 0);
        }
        writing::write_key(cabinet, its, record, &number);
        return file(numbers::ACCEPTED, 0);
    }
    let Some(free) = free_at(cabinet) else {
        return file(numbers::NO_PLACE, 0);
    };
    writing::write_place(cabinet, free, record, &tvps::START, &number);
    file(numbers::ACCEPTED, 0)
}

// Takes the public key of this identity's kind, Manufacturer and MID out: its place is all zeros afterwards, the TVP too. 23 before all; the identity's own numbers; 26 where
// there is none.
pub fn remove_key(cabinet: &mut [u8], identity: &[u8]) -> Filed
    ensures { Files (remove_key cabinet.old identity.now) cabinet.new result }
{
    if !is_cabinet(cabinet) {
        return file(numbers::NOT_CABINET, 0);
    }
    let answer = reading::read_identity(identity);
    if answer.no != numbers::ACCEPTED {
        return file(answer.no, answer.field);
    }
    let Some(its) = place_of(cabinet, 0, naming::names_in(identity)) else {
        return file(numbers::NOT_THERE, 0);
    };
    writing::write_place(cabinet, its, &[], &[], &[]);
    file(numbers::ACCEPTED, 0)
}

// Admits a load request: the module of its ID_SM, by kind, Manufacturer and MID, is in the cabinet, and its TVP is later than the last one accepted for that module. The TVP
// is then stored, and nothing else changes. 23 before all; the request's own numbers (another kind answers 2); 26 where the module is not there, or its record is old; 27 where the TVP is not
// later: the request was answered before, or a later one was.
pub fn admit(cabinet: &mut [u8], request: &[u8]) -> Filed
    ensures { Files (admit cabinet.old request.now) cabinet.new result }
{
    if !is_cabinet(cabinet) {
        return file(numbers::NOT_CABINET, 0);
    }
    let answer = reading::read_of(table::REQ, table::RESP, request);
    if answer.no != numbers::ACCEPTED {
        return file(answer.no, answer.field);
    }
    let id_sm = places::field_at(request, &answer.starts, &answer.lens, table::REQ_ID_SM);
    let Some(its) = current_of(cabinet, naming::names_in(id_sm)) else {
        return file(numbers::NOT_THERE, 0);
    };
    let tvp = places::field_at(request, &answer.starts, &answer.lens, table::REQ_TVP);
    if !tvps::is_later_tvp(tvp, place_at(cabinet, its)) {
        return file(numbers::TVP_NOT_LATER, 0);
    }
    writing::write_tvp(cabinet, its, tvp);
    file(numbers::ACCEPTED, 0)
}

fn find_none(no: u8, field: u8) -> fields::Place
    ensures { result ≡ record { no = no; field = field; start = 0; len = 0 } }
{
    fields::Place {
        no,
        field,
        start: 0,
        len: 0,
    }
}

// Where the public key of this identity's kind, Manufacturer and MID stands in the cabinet's bytes, with the numbers of `remove_key`, and 26 too where it is
// old; start and length are 0 with a refusal.
pub fn key_place(cabinet: &[u8], identity: &[u8]) -> fields::Place
    ensures { FindSaid (find_key cabinet.now identity.now) cabinet.now result }
{
    if !is_cabinet(cabinet) {
        return find_none(numbers::NOT_CABINET, 0);
    }
    let answer = reading::read_identity(identity);
    if answer.no != numbers::ACCEPTED {
        return find_none(answer.no, answer.field);
    }
    let Some(its) = current_of(cabinet, naming::names_in(identity)) else {
        return find_none(numbers::NOT_THERE, 0);
    };
    fields::Place {
        no: numbers::ACCEPTED,
        field: 0,
        start: its * WIDTH,
        len: frame::next_mark(0, place_at(cabinet, its), 0),
    }
}

// The record itself, a part of the cabinet's bytes; with a refusal an empty part at their front.
pub fn find_key<'a>(cabinet: &'a [u8], identity: &[u8], no: &mut u8, field: &mut u8) -> &'a [u8]
    ensures { FindPart (find_key cabinet.now identity.now) cabinet.entry result no.new field.new }
{
    let place = key_place(cabinet, identity);
    *no = place.no;
    *field = place.field;
    let start = place.start;
    let end = start + place.len;
    &cabinet[start..end]
}
