//! The digest of the frame table.
ghost use Rattle.std.specs.Prelude.{◌≡◌};
ghost use Rattle.listing.specs.Digests.{digest_of};
ghost use Rattle.listing.specs.Records.{record_bytes, records_bytes};

use crate::digest::Digest;
use model::shape::FrameRecord;

// The page of a record, high byte first, and its fix count.
fn record_bytes(of: FrameRecord) -> [u8; 3]
    ensures { result ≡ record_bytes of }
{
    let [high, low] = of.page.to_be_bytes();
    [high, low, of.fixes]
}

/// The digest of records of the frame table: of each the page, high byte first, and the fix count.
pub fn digest_of_records(records: &[FrameRecord]) -> u64
    ensures { result ≡ digest_of (records_bytes records.now) }
{
    let mut digest = Digest::new();
    for of in records {
        digest.add(&record_bytes(*of));
    }
    digest.number()
}
