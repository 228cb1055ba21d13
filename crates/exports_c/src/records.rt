// Reading a record or an identity, and where one field or one attribute of it stands in the caller's bytes.
ghost use Rattle.std.specs.Prelude.{◌≡◌};
ghost use Rattle.format.specs.Kinds.{key_kinds};
ghost use Rattle.format.specs.Read.{read_identity, read_of, read_record};
ghost use Rattle.reading.specs.Reading.{answer_of};
ghost use Rattle.fields.specs.Fields.{Placed};
ghost use Rattle.fields.specs.Attributes.{cards_said, number_named, AttributePlaced};

// Reads an identity.
#[unsafe(no_mangle)]
pub extern "C" fn obscurlane_read_identity(identity: &[u8]) -> reading::Answer
    ensures { result ≡ answer_of (read_identity identity.now) }
{
    exports::records::obscurlane_read_identity(identity)
}

// Reads a record of any of the five record kinds.
#[unsafe(no_mangle)]
pub extern "C" fn obscurlane_read_record(record: &[u8]) -> reading::Answer
    ensures { result ≡ answer_of (read_record «record».now) }
{
    exports::records::obscurlane_read_record(record)
}

// A field of an identity, counted from 1.
#[unsafe(no_mangle)]
pub extern "C" fn obscurlane_identity_field(identity: &[u8], wanted: usize) -> fields::Place
    ensures { Placed (read_identity identity.now) wanted identity.now result }
{
    exports::records::obscurlane_identity_field(identity, wanted)
}

// A field of a record, counted from 1.
#[unsafe(no_mangle)]
pub extern "C" fn obscurlane_record_field(record: &[u8], wanted: usize) -> fields::Place
    ensures { Placed (read_record «record».now) wanted «record».now result }
{
    exports::records::obscurlane_record_field(record, wanted)
}

// An attribute of a wrapped key, counted from 1.
#[unsafe(no_mangle)]
pub extern "C" fn obscurlane_attribute(record: &[u8], wanted: usize) -> fields::Place
    ensures { AttributePlaced (read_of key_kinds «record».now) wanted «record».now result }
{
    exports::records::obscurlane_attribute(record, wanted)
}

// An attribute of a wrapped key by its name of three characters.
#[unsafe(no_mangle)]
pub extern "C" fn obscurlane_attribute_named(record: &[u8], name: &[u8]) -> fields::Place
    ensures { AttributePlaced (read_of key_kinds «record».now) (number_named name.now (cards_said (read_of key_kinds «record».now))) «record».now result }
{
    exports::records::obscurlane_attribute_named(record, name)
}
