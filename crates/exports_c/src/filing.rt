// The centre's key cabinet, in 65,536 bytes that the caller lends to every call.
ghost use Rattle.std.specs.Prelude.{◌≡◌};
ghost use Rattle.shelf.specs.Cabinet.{make_cabinet, put_key, remove_key, admit, find_key};
ghost use Rattle.cabinet.specs.Cabinet.{Files, checked, counted, FindSaid};

// Makes the lent bytes an empty cabinet.
#[unsafe(no_mangle)]
pub extern "C" fn obscurlane_make_cabinet(cabinet: &mut [u8]) -> cabinet::Filed
    ensures { Files (make_cabinet cabinet.old) cabinet.new result }
{
    exports::filing::obscurlane_make_cabinet(cabinet)
}

// Whether the bytes are a cabinet.
#[unsafe(no_mangle)]
pub extern "C" fn obscurlane_check_cabinet(cabinet: &[u8]) -> cabinet::Filed
    ensures { result ≡ checked cabinet.now }
{
    exports::filing::obscurlane_check_cabinet(cabinet)
}

// How many places are occupied.
#[unsafe(no_mangle)]
pub extern "C" fn obscurlane_count_keys(cabinet: &[u8]) -> cabinet::Counted
    ensures { result ≡ counted cabinet.now }
{
    exports::filing::obscurlane_count_keys(cabinet)
}

// Puts a public key in.
#[unsafe(no_mangle)]
pub extern "C" fn obscurlane_put_key(cabinet: &mut [u8], record: &[u8]) -> cabinet::Filed
    ensures { Files (put_key cabinet.old «record».now) cabinet.new result }
{
    exports::filing::obscurlane_put_key(cabinet, record)
}

// Takes the public key of an identity out.
#[unsafe(no_mangle)]
pub extern "C" fn obscurlane_remove_key(cabinet: &mut [u8], identity: &[u8]) -> cabinet::Filed
    ensures { Files (remove_key cabinet.old identity.now) cabinet.new result }
{
    exports::filing::obscurlane_remove_key(cabinet, identity)
}

// Admits a load request of a module whose public key is there.
#[unsafe(no_mangle)]
pub extern "C" fn obscurlane_admit(cabinet: &mut [u8], request: &[u8]) -> cabinet::Filed
    ensures { Files (admit cabinet.old request.now) cabinet.new result }
{
    exports::filing::obscurlane_admit(cabinet, request)
}

// Where the public key of an identity stands in the cabinet's bytes.
#[unsafe(no_mangle)]
pub extern "C" fn obscurlane_find_key(cabinet: &[u8], identity: &[u8]) -> fields::Place
    ensures { FindSaid (find_key cabinet.now identity.now) cabinet.now result }
{
    exports::filing::obscurlane_find_key(cabinet, identity)
}
