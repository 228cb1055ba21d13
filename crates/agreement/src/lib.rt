// The three key agreement texts of a load request (STS 600-4-2, clause 5.6): the number of items, then of each item its
// length and its bytes. The request is read once, and its fields go in as parts of its own bytes; only QE is decoded.
#![tactic(auto)]

ghost use Rattle.std.specs.Prelude.{◌≡◌, ◌+◌, ◌≤◌, length, T};
ghost use Rattle.text.specs.Text.{is_hex};
ghost use Rattle.text.specs.Base16.{base16_decode};
ghost use Rattle.format.specs.Kinds.{REQ};
ghost use Rattle.format.specs.Read.{fields_in};
ghost use Rattle.put.specs.Put.{Put};
ghost use Rattle.put.specs.Made.{Writes};
ghost use Rattle.agreement.specs.Texts.{text_made, shared_info, module_text, centre_text};
ghost use Rattle.agreement.specs.Steps.{lv_item, item_for, items_by, text_of, Small, Suited, Places};

// A decoded point has so many bytes.
pub const POINT_BYTES: usize = 97;

// ---- what the texts are made of: a label, and behind it fields of the request, in this order

pub const SHARED_LABEL: [u8; 9] = *b"STS.KAA.1";

pub const SHARED_FIELDS: [usize; 3] = [table::REQ_ID_SM, table::REQ_ID_KMC, table::REQ_TVP];

pub const MODULE_LABEL: [u8; 3] = *b"U_2";

pub const MODULE_FIELDS: [usize; 6] = [
    table::REQ_ID_SM,
    table::REQ_ID_KMC,
    table::REQ_QE,
    table::REQ_TVP,
    table::REQ_HWID,
    table::REQ_FWID,
];

pub const CENTRE_LABEL: [u8; 2] = *b"V2";

pub const CENTRE_FIELDS: [usize; 4] = [
    table::REQ_ID_KMC,
    table::REQ_ID_SM,
    table::REQ_TVP,
    table::REQ_QE,
];

// A label, and behind it fields of the request, in this order.
#[derive(Clone, Copy)]
pub struct Outline<'a> {
    pub label: &'a [u8],
    pub fields: &'a [usize],
    pub ghost small: { Small label.now fields.now },
}

// A request that was read and accepted: its bytes, and where its fields stand in them.
#[derive(Clone, Copy)]
pub struct LoadRequest<'a> {
    pub bytes: &'a [u8],
    pub starts: &'a [usize; 7],
    pub lens: &'a [usize; 7],
    pub ghost placed: { Places bytes.now starts.now lens.now },
    pub ghost suited: { Suited (fields_in REQ bytes.now) },
}

// ---- items

// The length of the item, and its bytes.
fn put_item(out: &mut [u8], at: usize, item: &[u8]) -> usize
    requires { (length item.now ≤ 255) × (at + 1 + length item.now ≤ length out.old) }
    ensures { Put out.old at (lv_item item.now) out.new result }
{
    let next = put::put_byte(out, at, item.len() as u8);
    put::put(out, next, item)
}

// A point, decoded, as an item.
fn put_point(out: &mut [u8], at: usize, point: &[u8]) -> usize
    requires { T (is_hex 194 point.now) × (at + 98 ≤ length out.old) }
    ensures { Put out.old at (lv_item (base16_decode point.now)) out.new result }
{
    let next = put::put_byte(out, at, POINT_BYTES as u8);
    put::put_decoded(out, next, point)
}

// Field n, from 1, as an item: QE is decoded, all else goes in as it stands.
fn put_field(out: &mut [u8], at: usize, request: &LoadRequest, n: usize) -> usize
    requires { at + 1 + length (item_for (fields_in REQ request.now.bytes.now) n) ≤ length out.old }
    ensures { Put out.old at (lv_item (item_for (fields_in REQ request.now.bytes.now) n)) out.new result }
{
    let field = places::field_at(request.bytes, request.starts, request.lens, n);
    if n == table::REQ_QE {
        put_point(out, at, field)
    } else {
        put_item(out, at, field)
    }
}

// The length of that item, without the byte that tells it.
fn field_length(request: &LoadRequest, n: usize) -> usize
    ensures { result ≡ length (item_for (fields_in REQ request.now.bytes.now) n) }
{
    match n {
        table::REQ_QE => POINT_BYTES,
        _ => places::field_at(request.bytes, request.starts, request.lens, n).len(),
    }
}

// ---- texts

// The length of the text of this outline.
fn text_length(outline: &Outline, request: &LoadRequest) -> usize
    ensures { result ≡ length (text_of outline.now.label.now outline.now.fields.now request.now.bytes.now) }
{
    // The count, and the label with its length.
    let mut total = 2 + outline.label.len();
    for &n in outline.fields {
        total += 1 + field_length(request, n);
    }
    total
}

// That text, from the front of an output that has room for it.
fn put_text(out: &mut [u8], outline: &Outline, request: &LoadRequest) -> usize
    requires { length (text_of outline.now.label.now outline.now.fields.now request.now.bytes.now) ≤ length out.old }
    ensures { Put out.old 0 (text_of outline.now.label.now outline.now.fields.now request.now.bytes.now) out.new result }
{
    let next = put::put_byte(out, 0, (1 + outline.fields.len()) as u8);
    let mut at = put_item(out, next, outline.label);
    for &n in outline.fields {
        at = put_field(out, at, request, n);
    }
    at
}

// The request's own refusal comes first, then 10; only then is anything written.
fn write_text(outline: &Outline, request: &[u8], out: &mut [u8]) -> put::Written
    ensures { Writes (text_made (items_by outline.now.label.now outline.now.fields.now) request.now (length out.old)) out.old out.new result }
{
    let answer = reading::read_of(table::REQ, table::RESP, request);
    if answer.no != numbers::ACCEPTED {
        return put::refuse(answer.no, answer.field);
    }
    let accepted = LoadRequest {
        bytes: request,
        starts: &answer.starts,
        lens: &answer.lens,
    };
    if out.len() < text_length(outline, &accepted) {
        return put::refuse(numbers::SHORT_OUTPUT, 0);
    }
    let len = put_text(out, outline, &accepted);
    put::Written {
        no: numbers::ACCEPTED,
        field: 0,
        len,
    }
}

// ---- the calls: each writes from the front of a lent output, or refuses and leaves it untouched
// Label and fields are put on the stack first: constants that are borrowed where they are named would stand in the object.

// SharedInfo.
pub fn shared_info(request: &[u8], out: &mut [u8]) -> put::Written
    ensures { Writes (shared_info request.now (length out.old)) out.old out.new result }
{
    let label = SHARED_LABEL;
    let fields = SHARED_FIELDS;
    let outline = Outline {
        label: &label,
        fields: &fields,
    };
    write_text(&outline, request, out)
}

// The module text, MacData_SM.
pub fn module_text(request: &[u8], out: &mut [u8]) -> put::Written
    ensures { Writes (module_text request.now (length out.old)) out.old out.new result }
{
    let label = MODULE_LABEL;
    let fields = MODULE_FIELDS;
    let outline = Outline {
        label: &label,
        fields: &fields,
    };
    write_text(&outline, request, out)
}

// The centre text, MacData_KMC.
pub fn centre_text(request: &[u8], out: &mut [u8]) -> put::Written
    ensures { Writes (centre_text request.now (length out.old)) out.old out.new result }
{
    let label = CENTRE_LABEL;
    let fields = CENTRE_FIELDS;
    let outline = Outline {
        label: &label,
        fields: &fields,
    };
    write_text(&outline, request, out)
}
