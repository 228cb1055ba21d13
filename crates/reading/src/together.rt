// The fields of a record together, after each of them: numbers 8, 14 and 28.
ghost use Rattle.std.specs.Prelude.{◌≡◌, cond};
ghost use Rattle.numbers.specs.Numbers.{wrong_attributes};
ghost use Rattle.format.specs.Attributes.{are_attributes};
ghost use Rattle.reading.specs.Steps.{unless, parts_by, unsigned_no, module_no, pubkey_no, whole_no};

// What the rules answer to the unsigned key of a module.
fn unsigned_no(rules: format::Rules) -> Result<(), u8>
    ensures { result ≡ unless (unsigned_no rules) tt }
{
    match rules {
        format::Rules::UpToE10 => Ok(()),
        format::Rules::Today => Err(numbers::MODULE_UNSIGNED),
    }
}

// 28 for a key whose Subject is a module's and whose Signature is empty, where the rules say so.
fn module_no(rules: format::Rules, subject: &[u8], signature: &[u8]) -> Result<(), u8>
    ensures { result ≡ unless (module_no rules subject.now signature.now) tt }
{
    if signature.is_empty() && table::is_called(table::SMID, frame::title_of(subject)) {
        return unsigned_no(rules);
    }
    Ok(())
}

// 8 for a public key with only one of Issuer and Signature; then of a PK.ECDH.1 what is said of a module's.
fn pubkey_no(
    rules: format::Rules,
    row: usize,
    subject: &[u8],
    issuer: &[u8],
    signature: &[u8],
) -> Result<(), u8>
    ensures { result ≡ unless (pubkey_no rules row subject.now issuer.now signature.now) tt }
{
    if issuer.is_empty() != signature.is_empty() {
        return Err(numbers::UNPAIRED);
    }
    if row == table::ECDH {
        return module_no(rules, subject, signature);
    }
    Ok(())
}

fn attributes_no(attributes: &[u8]) -> Result<(), u8>
    ensures { result ≡ unless (cond (are_attributes attributes.now) 0 wrong_attributes) tt }
{
    if cards::are_attributes(attributes) {
        return Ok(());
    }
    Err(numbers::WRONG_ATTRIBUTES)
}

// 8 or 28 for a public key, 14 for a wrapped key whose attribute list is not permitted.
pub(crate) fn whole_no(
    rules: format::Rules,
    row: usize,
    s: &[u8],
    starts: &[usize; 7],
    lens: &[usize; 7],
) -> Result<(), u8>
    ensures { result ≡ unless (whole_no rules row (parts_by row s.now starts.now lens.now)) tt }
{
    if table::is_pubkey(row) {
        let subject = places::field_at(s, starts, lens, table::PUBKEY_SUBJECT);
        let issuer = places::field_at(s, starts, lens, table::PUBKEY_ISSUER);
        let signature = places::field_at(s, starts, lens, table::PUBKEY_SIGNATURE);
        return pubkey_no(rules, row, subject, issuer, signature);
    }
    if row == table::KEY {
        return attributes_no(places::field_at(s, starts, lens, table::KEY_ATTRIBUTES));
    }
    Ok(())
}
