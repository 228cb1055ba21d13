// The calls that a step names. Each says what the library hands back.
use crate::say::{self, Saying};
use crate::step::{Call, Step};
use crate::{confirmations, dates, files_of_records, filing, rebuilding, writing};
use std::io;

// ---- texts

// The text of a request that the call writes.
fn agreement_text<P: Print, F: Fn(&[u8], &mut [u8]) -> put::Written>(
    say: &mut Saying<P>,
    write: F,
    request: &[u8],
) -> io::Result<()>
    requires { F.IsAlwaysCallable write }
{
    let mut out = [0u8; 512];
    let made = write(request, &mut out);
    say.hex(made.no, say::front(&out, made.len))
}

// An item of the module text.
fn module_item<P: Print>(say: &mut Saying<P>, request: &[u8], n: usize) -> io::Result<()> {
    let mut out = [0u8; 512];
    let made = agreement::module_text(request, &mut out);
    let mut no = 0;
    let item = items::text_item(say::front(&out, made.len), n, &mut no);
    say.hex(no, item)
}

fn fingerprint<P: Print>(say: &mut Saying<P>, key: &[u8]) -> io::Result<()> {
    let mut out = [0u8; 16];
    let made = fingerprint::write_fingerprint(key, &mut out);
    say.written(made, &out)
}

// ---- a part of what is lent

fn part<'a, P: Print>(
    say: &mut Saying<P>,
    call: Call,
    n: usize,
    a: &'a [u8],
    b: &'a [u8],
) -> io::Result<()> {
    let mut no = 0;
    let mut field = 0;
    let part = match call {
        Call::Newer => newer::newer(a, b, &mut no, &mut field),
        Call::IdentityField => fields::identity_field(a, n, &mut no, &mut field),
        Call::RecordField => fields::record_field(a, n, &mut no, &mut field),
        Call::Attribute => fields::attribute(a, n, &mut no, &mut field),
        _ => fields::attribute_named(a, b, &mut no, &mut field),
    };
    say.part(no, part)
}

// Every attribute of a wrapped key by its number, each with its ';' again; no list has as many as bytes are read.
fn attributes<P: Print>(say: &mut Saying<P>, key: &[u8]) -> io::Result<()> {
    for n in 1..reading::LONGEST {
        let mut no = 0;
        let mut field = 0;
        let card = fields::attribute(key, n, &mut no, &mut field);
        if no != numbers::ACCEPTED {
            break;
        }
        say.piece(card)?;
        say.piece(b";")?;
    }
    Ok(())
}

// ---- hashes of the bytes a thousand times, one behind the other

fn sha384_thousandfold(bytes: &[u8]) -> [u8; 48] {
    let mut state = sha384::Sha384::begin();
    for _ in 0..1000 {
        state = state.add(bytes);
    }
    state.end()
}

fn sha1_thousandfold(bytes: &[u8]) -> [u8; 20] {
    let mut state = sha_1::Sha1::begin();
    for _ in 0..1000 {
        state = state.add(bytes);
    }
    state.end()
}

// ---- by name

// The number that a call answers which hands nothing back.
fn verdict(call: Call, a: &[u8]) -> u8 {
    match call {
        Call::ReadIdentity => reading::read_identity(a).no,
        Call::ReadRecord => reading::read_record(a).no,
        Call::CheckFingerprint => fingerprint::check_fingerprint(a).no,
        _ => trailed::read_trailed(a).no,
    }
}

fn confirmation<P: Print>(say: &mut Saying<P>, call: Call, step: Step) -> io::Result<()> {
    let n = step.number();
    let a = step.part(2);
    let b = step.part(3);
    match call {
        Call::Hmac => confirmations::hmac(say, n, a, b),
        Call::ModuleTag => confirmations::tag(say, agreement::module_text, a, b),
        Call::CentreTag => confirmations::tag(say, agreement::centre_text, a, b),
        Call::MacKey => confirmations::mac_key(say, n, a, b),
        Call::Kek => confirmations::kek(say, n, a, b),
        Call::ConfirmRequest => confirmations::confirm_request(say, a, b),
        _ => confirmations::confirm_response(say, a, b, step.part(4)),
    }
}

fn answer<P: Print>(say: &mut Saying<P>, call: Call, step: Step) -> io::Result<()> {
    let n = step.number();
    let a = step.part(2);
    match call {
        Call::File | Call::TrailedFile | Call::Sha1File => files_of_records::run(say, call, step),
        Call::SharedInfo => agreement_text(say, agreement::shared_info, a),
        Call::ModuleText => agreement_text(say, agreement::module_text, a),
        Call::CentreText => agreement_text(say, agreement::centre_text, a),
        Call::ModuleItem => module_item(say, a, n),
        Call::ReadIdentity | Call::ReadRecord | Call::CheckFingerprint | Call::ReadTrailed => {
            say.part(verdict(call, a), b"accepted")
        }
        Call::Attributes => attributes(say, a),
        Call::Sha384 => say.hex(numbers::ACCEPTED, &sha384::sha384_of(a)),
        Call::Thousandfold => say.hex(numbers::ACCEPTED, &sha384_thousandfold(a)),
        Call::Fingerprint => fingerprint(say, a),
        Call::Hmac
        | Call::ModuleTag
        | Call::CentreTag
        | Call::MacKey
        | Call::Kek
        | Call::ConfirmRequest
        | Call::ConfirmResponse => confirmation(say, call, step),
        Call::Sha1 => say.hex(numbers::ACCEPTED, &sha_1::sha1_of(a)),
        Call::Sha1Thousandfold => say.hex(numbers::ACCEPTED, &sha1_thousandfold(a)),
        Call::BuildTrailed => rebuilding::rebuild(say, a, &trailed::read_trailed(a)),
        Call::WriteTrailed => writing::write(say, trailed::write_trailed, a, step.part(3)),
        Call::MomentOf => dates::moment(say, a),
        Call::ExpiryOf => dates::expiry(say, a),
        Call::Cabinet => filing::go(say, step),
        Call::BuildUnsigned => rebuilding::rebuild_unsigned(say, a, rebuilding::read(a)),
        Call::Build => rebuilding::rebuild(say, a, &rebuilding::read(a)),
        _ => part(say, call, n, a, step.part(3)),
    }
}

// Whether what the call says is the value known.
pub(crate) fn run<P: Print>(rt: &P, step: Step, known: &[u8]) -> io::Result<bool> {
    let call = step.call();
    match call {
        Call::WriteMail => writing::by_mail(rt, mail::write_mail, step, known),
        Call::ReadMail => writing::by_mail(rt, mail::read_mail, step, known),
        _ => {
            let mut say = Saying::new(rt, known);
            answer(&mut say, call, step)?;
            Ok(say.agrees())
        }
    }
}
