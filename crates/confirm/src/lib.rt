// The confirmation tags of a key agreement: document 02, E5; STS 600-4-2, clauses 6.3 and 6.4, and sections 11 and 12. Z is lent and
// read only. The calls take any bytes and have no `requires`; the records' own refusals come first. docs/TRUST.md says what is promised of
// their time, and what stays on the stack.
#![tactic(auto)]

mod tags;
mod texts;

ghost use Rattle.std.specs.Prelude.{◌≡◌, length};
ghost use Rattle.places.specs.Places.{field_at};
ghost use Rattle.confirm.specs.Confirm.{Confirms, confirm_request, confirm_response};
ghost use Rattle.confirm.specs.Steps.{answers_at};

use agreement::LoadRequest;

// Z has so many bytes: two shared secrets of 48.
pub const Z_BYTES: usize = 96;

// A key has so many.
pub const KEY_BYTES: usize = 24;

// ---- what is answered

pub const REQUEST: u8 = 1;

pub const RESPONSE: u8 = 2;

const NEITHER: u8 = 0;

// The number and the field's number, and with a record's own refusal which record it is, REQUEST or RESPONSE; 0 otherwise.
#[repr(C)]
#[derive(Clone, Copy)]
pub struct Confirmed {
    pub no: u8,
    pub field: u8,
    pub which: u8,
}

// A number that is about no field of a record.
fn say(no: u8) -> Confirmed
    ensures { result ≡ record { no = no; field = 0; which = 0 } }
{
    Confirmed {
        no,
        field: 0,
        which: NEITHER,
    }
}

// A record's own refusal.
fn refuse(answer: reading::Answer, which: u8) -> Confirmed
    ensures { result ≡ record { no = answer.no; field = answer.field; which = which } }
{
    Confirmed {
        no: answer.no,
        field: answer.field,
        which,
    }
}

// ---- the calls

// Whether the response at these places answers the request at those: the bytes of both identities and of TVP.
fn does_answer(
    request: &[u8],
    asked: &reading::Answer,
    response: &[u8],
    reply: &reading::Answer,
) -> bool
    ensures { result ≡ answers_at (field_at request.now asked.now.starts asked.now.lens) (field_at response.now reply.now.starts reply.now.lens) }
{
    let id_kmc = places::field_at(request, &asked.starts, &asked.lens, table::REQ_ID_KMC);
    let id_sm = places::field_at(request, &asked.starts, &asked.lens, table::REQ_ID_SM);
    let tvp = places::field_at(request, &asked.starts, &asked.lens, table::REQ_TVP);
    let its_id_kmc = places::field_at(response, &reply.starts, &reply.lens, table::RESP_ID_KMC);
    let its_id_sm = places::field_at(response, &reply.starts, &reply.lens, table::RESP_ID_SM);
    let its_tvp = places::field_at(response, &reply.starts, &reply.lens, table::RESP_TVP);
    text::are_same(id_kmc, its_id_kmc)
        && text::are_same(id_sm, its_id_sm)
        && text::are_same(tvp, its_tvp)
}

// Of a request: whether its MacTag is right for Z. With 0 the MacKey and the KEK stand at the front of the lent outputs; with any
// refusal neither is touched.
pub fn confirm_request(z: &[u8], request: &[u8], mac_key: &mut [u8], kek: &mut [u8]) -> Confirmed
    ensures { Confirms (confirm_request z.now request.now (length mac_key.old) (length kek.old)) mac_key.old kek.old mac_key.new kek.new result }
{
    let asked = reading::read_of(table::REQ, table::RESP, request);
    if asked.no != numbers::ACCEPTED {
        return refuse(asked, REQUEST);
    }
    if z.len() != Z_BYTES {
        return say(numbers::WRONG_Z);
    }
    if mac_key.len() < KEY_BYTES || kek.len() < KEY_BYTES {
        return say(numbers::SHORT_OUTPUT);
    }
    let accepted = LoadRequest {
        bytes: request,
        starts: &asked.starts,
        lens: &asked.lens,
    };
    let keys = tags::derived(z, &accepted);
    let right = tags::module_tag(&keys[..KEY_BYTES], &accepted);
    let said = places::field_at(request, &asked.starts, &asked.lens, table::REQ_MAC_TAG);
    if !tags::is_tag(said, &right) {
        return say(numbers::WRONG_TAG);
    }
    put::put(mac_key, 0, &keys[..KEY_BYTES]);
    put::put(kek, 0, &keys[KEY_BYTES..]);
    say(numbers::ACCEPTED)
}

// Of a response, with the request that it answers: whether the response's MacTag is right for Z. The request's is not looked at.
pub fn confirm_response(z: &[u8], request: &[u8], response: &[u8]) -> Confirmed
    ensures { result ≡ confirm_response z.now request.now response.now }
{
    let asked = reading::read_of(table::REQ, table::RESP, request);
    if asked.no != numbers::ACCEPTED {
        return refuse(asked, REQUEST);
    }
    let reply = reading::read_of(table::RESP, table::KEY, response);
    if reply.no != numbers::ACCEPTED {
        return refuse(reply, RESPONSE);
    }
    if z.len() != Z_BYTES {
        return say(numbers::WRONG_Z);
    }
    if !does_answer(request, &asked, response, &reply) {
        return say(numbers::OTHER_REQUEST);
    }
    let accepted = LoadRequest {
        bytes: request,
        starts: &asked.starts,
        lens: &asked.lens,
    };
    let keys = tags::derived(z, &accepted);
    let right = tags::centre_tag(&keys[..KEY_BYTES], &accepted);
    let said = places::field_at(response, &reply.starts, &reply.lens, table::RESP_MAC_TAG);
    if !tags::is_tag(said, &right) {
        return say(numbers::WRONG_TAG);
    }
    say(numbers::ACCEPTED)
}
