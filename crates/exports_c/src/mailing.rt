// Records by mail.
ghost use Rattle.std.specs.Prelude.{length};
ghost use Rattle.put.specs.Made.{Writes};
ghost use Rattle.mail.specs.Mail.{write_mail, read_mail};

// A record between its BEGINS and ENDS lines, from the front of a lent output.
#[unsafe(no_mangle)]
pub extern "C" fn obscurlane_write_mail(record: &[u8], out: &mut [u8]) -> put::Written
    ensures { Writes (write_mail «record».now (length out.old)) out.old out.new result }
{
    exports::mailing::obscurlane_write_mail(record, out)
}

// The record of the first block in a text, from the front of a lent output.
#[unsafe(no_mangle)]
pub extern "C" fn obscurlane_read_mail(text: &[u8], out: &mut [u8]) -> put::Written
    ensures { Writes (read_mail text.now (length out.old)) out.old out.new result }
{
    exports::mailing::obscurlane_read_mail(text, out)
}
