// Building, and the key agreement texts, from the front of a lent output.
ghost use Rattle.std.specs.Prelude.{length};
ghost use Rattle.put.specs.Made.{Writes};
ghost use Rattle.building.specs.Building.{build};
ghost use Rattle.agreement.specs.Texts.{shared_info, module_text, centre_text};

// Builds a record of the named kind from the bytes of all fields one after another and the fields' lengths.
#[unsafe(no_mangle)]
pub extern "C" fn obscurlane_build(
    kind: &[u8],
    bytes: &[u8],
    lens: &[usize],
    out: &mut [u8],
) -> put::Written
    ensures { Writes (build kind.now bytes.now lens.now (length out.old)) out.old out.new result }
{
    exports::writing::obscurlane_build(kind, bytes, lens, out)
}

// SharedInfo of a load request.
#[unsafe(no_mangle)]
pub extern "C" fn obscurlane_shared_info(request: &[u8], out: &mut [u8]) -> put::Written
    ensures { Writes (shared_info request.now (length out.old)) out.old out.new result }
{
    exports::writing::obscurlane_shared_info(request, out)
}

// MacData_SM of a load request.
#[unsafe(no_mangle)]
pub extern "C" fn obscurlane_module_text(request: &[u8], out: &mut [u8]) -> put::Written
    ensures { Writes (module_text request.now (length out.old)) out.old out.new result }
{
    exports::writing::obscurlane_module_text(request, out)
}

// MacData_KMC of a load request.
#[unsafe(no_mangle)]
pub extern "C" fn obscurlane_centre_text(request: &[u8], out: &mut [u8]) -> put::Written
    ensures { Writes (centre_text request.now (length out.old)) out.old out.new result }
{
    exports::writing::obscurlane_centre_text(request, out)
}
