// The reading calls: document 01, "Numbers given back", and document 02, E1 and E11. Each takes any bytes; no public one has a
// `requires`. The order is 1, 2, 3, 4, 5, then the fields from left to right (6, or 7 before 9), then 8, then 14, then 28: `form_no`
// has 2 to 4, `judge` the fields.
// A record is walked over once for its fields' places: every test of a field, and every later use of one, goes by them.
#![tactic(auto)]

mod together;

ghost use Rattle.std.specs.Prelude.{◌≡◌, cond, ◌&&◌, ◌||◌, ◌<◌, eqb, ltb, MatchResult};
ghost use Rattle.numbers.specs.Numbers.{wrong_text};
ghost use Rattle.format.specs.Build.{empty};
ghost use Rattle.format.specs.Read.{refused, identity_answer, nobody, read_identity, read_under, read_of, read_record};
ghost use Rattle.table.specs.Table.{field_type, is_identity, may_be_empty, permitted, kinds_from};
ghost use Rattle.reading.specs.Reading.{kind_said, answer_of, judged_by, judge};
ghost use Rattle.reading.specs.Steps.{no_field, unless, form_no, places_in, is_text, field_said, parts_by, AllPass, FirstRefused, Kinds, kinds_or, answer_or};

// No record that is read or built is longer.
pub const LONGEST: usize = 1024;

// What a reading call answers: its number, the field's number (0 where none is named), the kind's row in the table, and of
// each field, from left to right, where it starts in the bytes read, its length, and the row of the identity in it
// (table::NONE where it is none). Past the last field, and with a refusal, start and length are 0 and the kind is NONE.
#[repr(C)]
#[derive(Clone, Copy)]
pub struct Answer {
    pub no: u8,
    pub field: u8,
    pub kind: usize,
    pub starts: [usize; 7],
    pub lens: [usize; 7],
    pub kinds: [usize; 7],
}

// What the fields of a record are answered: the number and the field's number, and the kinds of the identities among them.
#[derive(Clone, Copy)]
pub struct Judged {
    pub no: u8,
    pub field: u8,
    pub kinds: [usize; 7],
}

// Why a record is refused: its number, as C is handed it, and the number of the field that it is about, 0 where it names none.
struct Refused {
    no: u8,
    field: u8,
}

impl From<u8> for Refused {
    ghost from_gives = { λ n r. r ≡ no_field n };

    fn from(no: u8) -> Refused {
        Refused { no, field: 0 }
    }
}

// The answer of a call that refuses.
pub fn refuse(no: u8, field: u8) -> Answer
    ensures { result ≡ answer_of (refused no field) }
{
    Answer {
        no,
        field,
        kind: table::NONE,
        starts: [0; 7],
        lens: [0; 7],
        kinds: [table::NONE; 7],
    }
}

// ---- numbers 2 to 5

// By the row that the title and its mark have.
fn form_no(row: usize, s: &[u8]) -> Result<(), u8>
    ensures { result ≡ unless (form_no row s.now) tt }
{
    if row == table::NONE {
        return Err(numbers::UNKNOWN_KIND);
    }
    let no = frame::check_no(table::mark_of(row), s);
    if no != numbers::ACCEPTED {
        return Err(no);
    }
    Ok(())
}

// The places of the fields in the body of a record whose form is right and which has as many as its kind.
fn places_in(row: usize, s: &[u8]) -> Result<places::Places, u8>
    ensures { result ≡ places_in row s.now }
{
    form_no(row, s)?;
    let found = places::places_of(table::mark_of(row), frame::body_of(s));
    if found.count != table::count_of(row) {
        return Err(numbers::WRONG_COUNT);
    }
    Ok(found)
}

// ---- a field that is a text: number 6

// The code is IDENT's, or names no text type: an identity's, or none at all.
fn is_ident_code(code: u8) -> bool
    ensures { result ≡ (eqb code 0 || (ltb 13 code || is_identity (field_type code))) }
{
    code == table::IDENT || table::PROTECTED < code || table::is_identity(code)
}

// Of the text type of this code; a code that names none is taken for IDENT's. The others in three parts, because LLVM makes a table of jumps
// of more than three codes in a row.
fn is_text(code: u8, field: &[u8]) -> bool
    ensures { result ≡ is_text (field_type code) field.now }
{
    if is_ident_code(code) {
        return text::is_ident(field);
    }
    if code < table::POINT {
        if code == table::TIMESTAMP {
            return text::is_timestamp(field);
        }
        return text::is_print(field);
    }
    if code < table::NONCE {
        if code == table::POINT {
            return text::is_point(field);
        }
        if code == table::MAC {
            return text::is_mac(field);
        }
        return text::is_sig(field);
    }
    if code == table::NONCE {
        return text::is_hex(24, field);
    }
    if code == table::PRINTABLE {
        return text::is_printable(field);
    }
    text::is_protected(field)
}

fn text_no(code: u8, field: &[u8]) -> Result<(), u8>
    ensures { result ≡ unless (cond (is_text (field_type code) field.now) 0 wrong_text) tt }
{
    if is_text(code, field) {
        return Ok(());
    }
    Err(numbers::WRONG_TEXT)
}

// ---- the identity call

// The fields of an identity, which are texts, from left to right. The identity kinds are the rows below 3. Starts and lengths are two
// parameters here and below, because `judge`, a public call, is lent them so: a struct would be made only to hand them on. A function for the
// fields of a record too would call itself, since those are identities, and its end had to be proved.
fn identity_fields(
    row: usize,
    s: &[u8],
    starts: &[usize; 7],
    lens: &[usize; 7],
) -> Result<(), Refused>
    requires { row < 3 }
    ensures { MatchResult result (λ u. AllPass nobody row (parts_by row s.now starts.now lens.now)) (FirstRefused nobody row (parts_by row s.now starts.now lens.now)) }
{
    for j in 0..table::count_of(row) {
        if let Err(no) = text_no(table::type_of(row, j), places::part_at(s, starts, lens, j)) {
            return Err(Refused {
                no,
                field: j as u8 + 1,
            });
        }
    }
    Ok(())
}

fn accept_identity(identity: &[u8]) -> Result<Answer, Refused>
    ensures { result ≡ answer_or (read_identity identity.now) }
{
    if LONGEST < identity.len() {
        return Err(Refused::from(numbers::TOO_LONG));
    }
    let row = table::identity_kind(frame::title_of(identity), frame::mark_after(identity));
    let found = places_in(row, identity)?;
    identity_fields(row, frame::body_of(identity), &found.starts, &found.lens)?;
    Ok(Answer {
        no: numbers::ACCEPTED,
        field: 0,
        kind: row,
        starts: found.starts,
        lens: found.lens,
        kinds: [table::NONE; 7],
    })
}

// Reads an identity. Over 1,024 bytes answer 1, a title and mark that are no identity kind's 2, and so on in the order
// above; a field that is not of its text type answers 6 with its number.
pub fn read_identity(identity: &[u8]) -> Answer
    ensures { result ≡ answer_of (read_identity identity.now) }
{
    match accept_identity(identity) {
        Ok(answer) => answer,
        Err(Refused { no, field }) => refuse(no, field),
    }
}

// ---- a field of a record

// The row of the identity; 7 where the field is no accepted one, then 9 where its kind is not permitted here.
fn identity_said(code: u8, field: &[u8]) -> Result<usize, u8>
    ensures { result ≡ unless (identity_answer (permitted (field_type code)) (read_identity field.now)) (kind_said (read_identity field.now)) }
{
    let inner = read_identity(field);
    if inner.no != numbers::ACCEPTED {
        return Err(numbers::WRONG_IDENTITY);
    }
    if table::does_permit(code, inner.kind) {
        return Ok(inner.kind);
    }
    Err(numbers::WRONG_KIND)
}

// The field is empty and may be.
fn is_left_empty(code: u8, field: &[u8]) -> bool
    ensures { result ≡ (empty field.now && may_be_empty (field_type code)) }
{
    field.is_empty() && table::may_be_empty(code)
}

// One field by the code of its type: 6 for a text, 7 or 9 for an identity, or the row of the identity in it. A field that may be empty and is has none.
fn field_said(code: u8, field: &[u8]) -> Result<usize, u8>
    ensures { result ≡ field_said (field_type code) field.now }
{
    if is_left_empty(code, field) {
        return Ok(table::NONE);
    }
    if table::is_identity(code) {
        return identity_said(code, field);
    }
    text_no(code, field)?;
    Ok(table::NONE)
}

// The fields of a record from left to right, and the kinds of the identities among them.
fn record_fields(
    row: usize,
    s: &[u8],
    starts: &[usize; 7],
    lens: &[usize; 7],
) -> Result<[usize; 7], Refused>
    ensures { MatchResult result (Kinds row (parts_by row s.now starts.now lens.now)) (FirstRefused read_identity row (parts_by row s.now starts.now lens.now)) }
{
    let mut kinds = [table::NONE; 7];
    for j in 0..table::count_of(row) {
        match field_said(table::type_of(row, j), places::part_at(s, starts, lens, j)) {
            Ok(kind) => kinds[j] = kind,
            Err(no) => {
                return Err(Refused {
                    no,
                    field: j as u8 + 1,
                });
            }
        }
    }
    Ok(kinds)
}

// ---- the fields, each and together

// The fields of the kind in this row that stand in s at these places: each of them, then all together. A row that is none
// answers 2.
fn judge_under(
    rules: format::Rules,
    row: usize,
    s: &[u8],
    starts: &[usize; 7],
    lens: &[usize; 7],
) -> Result<[usize; 7], Refused>
    ensures { result ≡ kinds_or (judged_by rules row (parts_by row s.now starts.now lens.now)) }
{
    if table::ROWS <= row {
        return Err(Refused::from(numbers::UNKNOWN_KIND));
    }
    let kinds = record_fields(row, s, starts, lens)?;
    // a match: the wrong answer `judge_under: 1 for 8, for 14 and for 28` is tried on a goal of its own
    match together::whole_no(rules, row, s, starts, lens) {
        Ok(()) => Ok(kinds),
        Err(no) => Err(Refused::from(no)),
    }
}

// The same under today's rules. Reader and builder both ask, each with the places of its own bytes.
pub fn judge(row: usize, s: &[u8], starts: &[usize; 7], lens: &[usize; 7]) -> Judged
    ensures { result ≡ judge row s.now starts.now lens.now }
{
    match judge_under(format::Rules::Today, row, s, starts, lens) {
        Ok(kinds) => Judged {
            no: numbers::ACCEPTED,
            field: 0,
            kinds,
        },
        Err(Refused { no, field }) => Judged {
            no,
            field,
            kinds: [table::NONE; 7],
        },
    }
}

// ---- the record calls

fn accept_under(
    rules: format::Rules,
    from: usize,
    to: usize,
    record: &[u8],
) -> Result<Answer, Refused>
    ensures { result ≡ answer_or (read_under rules (kinds_from from to) «record».now) }
{
    if LONGEST < record.len() {
        return Err(Refused::from(numbers::TOO_LONG));
    }
    let row = table::record_kind(frame::title_of(record), frame::mark_after(record), from, to);
    let found = places_in(row, record)?;
    let kinds = judge_under(
        rules,
        row,
        frame::body_of(record),
        &found.starts,
        &found.lens,
    )?;
    Ok(Answer {
        no: numbers::ACCEPTED,
        field: 0,
        kind: row,
        starts: found.starts,
        lens: found.lens,
        kinds,
    })
}

// Reads a record of the kinds in the table's rows from `from` to before `to`, under these rules. Every other kind answers 2 in its
// place, and so does an identity, whatever the rows.
pub fn read_under(rules: format::Rules, from: usize, to: usize, record: &[u8]) -> Answer
    ensures { result ≡ answer_of (read_under rules (kinds_from from to) «record».now) }
{
    match accept_under(rules, from, to, record) {
        Ok(answer) => answer,
        Err(Refused { no, field }) => refuse(no, field),
    }
}

// The same under today's rules.
pub fn read_of(from: usize, to: usize, record: &[u8]) -> Answer
    ensures { result ≡ answer_of (read_of (kinds_from from to) «record».now) }
{
    read_under(format::Rules::Today, from, to, record)
}

// Reads a record of any of the five record kinds.
pub fn read_record(record: &[u8]) -> Answer
    ensures { result ≡ answer_of (read_record «record».now) }
{
    read_of(table::ECDSA, table::ROWS, record)
}
