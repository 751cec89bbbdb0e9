// The identifiers that are entered, as bytes in a lent list: each CSD's BIC, then each security's ISIN.
ghost use Rattle.std.specs.Prelude.{◌≡◌, ◌+◌, ◌*◌, ◌/◌, ◌<◌, length};
ghost use Rattle.std.specs.List.{list_any};
ghost use Rattle.std.specs.Simd.{first_chunks};
ghost use Rattle.rules.specs.Identifiers.{same_bytes};
ghost use Rattle.identifiers.specs.Names.{bic_size, isin_size, isins, with_byte, with_bytes};
ghost use Rattle.identifiers.specs.Names.{isin_of, bic_in, isin_in};

use index::places::{CSD_COUNT, INDEX, SECURITY_COUNT, entry};
use rules::{BIC, CSDS, ISIN, SECURITIES};

// Where the ISINs begin, and how many bytes there are.
const ISINS: usize = BIC * CSDS;

pub const NAMES: usize = ISINS + ISIN * SECURITIES;

// The byte put at the place; nothing is put behind the end.
#[tactic(auto, unfolding(crate::specs::Names::with_byte))]
fn put_byte(names: &mut [u8; NAMES], place: usize, byte: u8)
    ensures { names.new ≡ with_byte names.old place byte }
{
    if place < NAMES {
        names[place] = byte;
    }
}

// The bytes put from the place on.
fn put_bytes(names: &mut [u8; NAMES], place: usize, bytes: &[u8])
    requires { (place < 1_000_000) × (length bytes.now < 256) }
    ensures { names.new ≡ with_bytes names.old place bytes.now }
{
    for (i, byte) in bytes.iter().enumerate() {
        put_byte(names, place + i, *byte);
    }
}

// The BIC of a CSD put.
pub fn put_bic(names: &mut [u8; NAMES], csd: u16, bic: [u8; BIC])
    ensures { names.new ≡ with_bytes names.old (bic_size * csd) bic }
{
    put_bytes(names, BIC * usize::from(csd), &bic);
}

// The ISIN of a security put.
pub fn put_isin(names: &mut [u8; NAMES], security: u16, isin: [u8; ISIN])
    ensures { names.new ≡ with_bytes names.old (isins + isin_size * security) isin }
{
    put_bytes(names, ISINS + ISIN * usize::from(security), &isin);
}

// Whether two identifiers are the same: all their bytes are. No byte ends the loop, which then is half the instructions of `==` at these sizes.
#[tactic(auto, unfolding(rules::specs::Identifiers::same_bytes))]
fn is_same<const N: usize>(a: &[u8; N], b: &[u8; N]) -> bool
    ensures { result ≡ same_bytes N a.now b.now }
{
    let mut same = true;
    for i in 0..N {
        same &= a[i] == b[i];
    }
    same
}

// Whether the identifier is one of those that stand one behind another.
fn is_among<const N: usize>(held: &[u8], id: &[u8; N]) -> bool
    requires { 0 < N }
    ensures { result ≡ list_any (λ h. same_bytes N h id.now) (first_chunks N (length held.now / N) held.now) }
{
    held.as_chunks::<N>().0.iter().any(
        |h| -> bool
            ensures { result ≡ same_bytes N h.now id.entry.now }
        { is_same(h, id) },
    )
}

// Whether the BIC is entered: as many are as the count, up to the table's limit.
pub fn bic_entered(index: &[u16; INDEX], names: &[u8; NAMES], bic: [u8; BIC]) -> bool
    ensures { result ≡ bic_in index.now names.now bic }
{
    let rows = usize::from(entry(index, CSD_COUNT)).min(CSDS);
    is_among(&names[..BIC * rows], &bic)
}

// Whether the ISIN is entered.
pub fn isin_entered(index: &[u16; INDEX], names: &[u8; NAMES], isin: [u8; ISIN]) -> bool
    ensures { result ≡ isin_in index.now names.now isin }
{
    let rows = usize::from(entry(index, SECURITY_COUNT)).min(SECURITIES);
    is_among(&names[ISINS..ISINS + ISIN * rows], &isin)
}

// The ISIN of a security, zeros behind the last.
pub fn isin_of(names: &[u8; NAMES], security: u8) -> [u8; ISIN]
    ensures { result ≡ isin_of names.now security }
{
    let isins = names[ISINS..].as_chunks().0;
    let held = isins.get(usize::from(security));
    held.copied().unwrap_or([0; ISIN])
}
