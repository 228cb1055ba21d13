// A step: the name of a call, a digit, and what the call is lent, with a tab between them.

#[derive(Clone, Copy)]
pub(crate) struct Step<'a> {
    pub(crate) bytes: &'a [u8],
}

impl<'a> Step<'a> {
    // Part n, from 0; an empty one where there is none.
    pub(crate) fn part(self, n: usize) -> &'a [u8] {
        frame::part(b'\t', self.bytes, n)
    }

    pub(crate) fn call(self) -> Call {
        Call::named(self.part(0))
    }

    // The number that a word of one digit is; 0 for any other word.
    pub(crate) fn number(self) -> usize {
        match self.part(1) {
            [digit] => text::hex_value(*digit) as usize,
            _ => 0,
        }
    }

    // All behind the first n parts.
    pub(crate) fn rest(self, n: usize) -> &'a [u8] {
        let start = frame::part_start(b'\t', self.bytes, n);
        self.bytes.get(start..).unwrap_or(&[])
    }
}

// A call by its name. Those from `MakeCabinet` to `FindKey`, and behind them what reads and writes the lent bytes, stand in a step of the
// key cabinet.
#[derive(Clone, Copy, PartialEq, Eq)]
pub(crate) enum Call {
    Newer,
    File,
    SharedInfo,
    ModuleText,
    CentreText,
    ModuleItem,
    ReadIdentity,
    ReadRecord,
    IdentityField,
    RecordField,
    Attribute,
    AttributeNamed,
    Attributes,
    Sha384,
    Thousandfold,
    Fingerprint,
    CheckFingerprint,
    Hmac,
    ModuleTag,
    CentreTag,
    MacKey,
    Kek,
    ConfirmRequest,
    ConfirmResponse,
    Sha1,
    Sha1File,
    Sha1Thousandfold,
    ReadTrailed,
    BuildTrailed,
    WriteTrailed,
    TrailedFile,
    WriteMail,
    ReadMail,
    MomentOf,
    ExpiryOf,
    Cabinet,
    MakeCabinet,
    CheckCabinet,
    CountKeys,
    PutKey,
    RemoveKey,
    KeyPlace,
    FindKey,
    Write,
    WriteHex,
    ReadHex,
    Admit,
    BuildUnsigned,
    Build,
}

const NAMES: [(&[u8], Call); 48] = [
    (b"newer", Call::Newer),
    (b"file", Call::File),
    (b"shared_info", Call::SharedInfo),
    (b"module_text", Call::ModuleText),
    (b"centre_text", Call::CentreText),
    (b"module_item", Call::ModuleItem),
    (b"read_identity", Call::ReadIdentity),
    (b"read_record", Call::ReadRecord),
    (b"identity_field", Call::IdentityField),
    (b"record_field", Call::RecordField),
    (b"attribute", Call::Attribute),
    (b"attribute_named", Call::AttributeNamed),
    (b"attributes", Call::Attributes),
    (b"sha384", Call::Sha384),
    (b"thousandfold", Call::Thousandfold),
    (b"fingerprint", Call::Fingerprint),
    (b"check_fingerprint", Call::CheckFingerprint),
    (b"hmac", Call::Hmac),
    (b"module_tag", Call::ModuleTag),
    (b"centre_tag", Call::CentreTag),
    (b"mac_key", Call::MacKey),
    (b"kek", Call::Kek),
    (b"confirm_request", Call::ConfirmRequest),
    (b"confirm_response", Call::ConfirmResponse),
    (b"sha1", Call::Sha1),
    (b"sha1_file", Call::Sha1File),
    (b"sha1_thousandfold", Call::Sha1Thousandfold),
    (b"read_trailed", Call::ReadTrailed),
    (b"build_trailed", Call::BuildTrailed),
    (b"write_trailed", Call::WriteTrailed),
    (b"trailed_file", Call::TrailedFile),
    (b"write_mail", Call::WriteMail),
    (b"read_mail", Call::ReadMail),
    (b"moment_of", Call::MomentOf),
    (b"expiry_of", Call::ExpiryOf),
    (b"cabinet", Call::Cabinet),
    (b"make_cabinet", Call::MakeCabinet),
    (b"check_cabinet", Call::CheckCabinet),
    (b"count_keys", Call::CountKeys),
    (b"put_key", Call::PutKey),
    (b"remove_key", Call::RemoveKey),
    (b"key_place", Call::KeyPlace),
    (b"find_key", Call::FindKey),
    (b"write", Call::Write),
    (b"write_hex", Call::WriteHex),
    (b"read_hex", Call::ReadHex),
    (b"admit", Call::Admit),
    (b"build_unsigned", Call::BuildUnsigned),
];

impl Call {
    // `Build` where no other call has the name.
    pub(crate) fn named(name: &[u8]) -> Call {
        for (its, call) in NAMES {
            if its == name {
                return call;
            }
        }
        Call::Build
    }
}
