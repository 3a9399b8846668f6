// The version, which the header names too.
ghost use Rattle.std.specs.Prelude.{◌≡◌};
ghost use Rattle.firmware.specs.Sizes.{header_version};

// 2.0.0: major * 65536 + minor * 256 + patch.
const VERSION: u32 = 131072;

pub fn coherence_version() -> u32
    ensures { result ≡ header_version }
{
    VERSION
}
