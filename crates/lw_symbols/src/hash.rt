// Names by numbers, so that few names are compared.
ghost use Rattle.std.specs.Prelude.{◌≡◌};
ghost use Rattle.lw_symbols.specs.Hashes.{name_hash};

use lw_base::Name;

/// What an empty name has.
const START: u32 = 2_166_136_261;

/// By what each byte multiplies.
const FACTOR: u32 = 16_777_619;

/// The number of a name. Equal names have equal numbers, and others mostly do not.
pub(crate) fn hash_of(name: &Name) -> u32
    ensures { result ≡ name_hash name.now }
{
    let mut hash = START;
    for byte in name.bytes() {
        hash = (hash ^ *byte as u32).wrapping_mul(FACTOR);
    }
    hash
}
