// The version, which the header names too.
ghost use Rattle.std.specs.Prelude.{◌≡◌};
ghost use Rattle.firmware.specs.Sizes.{header_version};

#[unsafe(no_mangle)]
pub extern "C" fn coherence_version() -> u32
    ensures { result ≡ header_version }
{
    firmware::version::coherence_version()
}
