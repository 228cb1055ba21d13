// When a public key expires, as a number: document 02, E9. The call takes any bytes and has no `requires`; the record's own
// refusals come first.
#![tactic(auto)]

ghost use Rattle.std.specs.Prelude.{◌≡◌};
ghost use Rattle.expiry.specs.Expiry.{expiry_under, expiry_of};

// The number and the field's number, 0 where none is named; with 0 the seconds from 19930101T000000Z to Expiry, negative
// before, and 0 with a refusal.
#[repr(C)]
#[derive(Clone, Copy)]
pub struct Expiry {
    pub no: u8,
    pub field: u8,
    pub seconds: i64,
}

// Of a public key under these rules; any other kind answers 2 in its place.
pub fn expiry_under(rules: format::Rules, record: &[u8]) -> Expiry
    ensures { result ≡ expiry_under rules «record».now }
{
    let answer = reading::read_under(rules, table::ECDSA, table::REQ, record);
    if answer.no != numbers::ACCEPTED {
        return Expiry {
            no: answer.no,
            field: answer.field,
            seconds: 0,
        };
    }
    let expiry = places::field_at(record, &answer.starts, &answer.lens, table::PUBKEY_EXPIRY);
    Expiry {
        no: numbers::ACCEPTED,
        field: 0,
        seconds: text::moment_of(expiry).seconds,
    }
}

// The same under today's rules.
pub fn expiry_of(record: &[u8]) -> Expiry
    ensures { result ≡ expiry_of «record».now }
{
    expiry_under(format::Rules::Today, record)
}
