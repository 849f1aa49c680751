//! Ids that are compared.

ghost use Rattle.std.specs.Prelude.{◌≡◌};
ghost use Rattle.blk_index.specs.Inside.Spots.{greater_of};
ghost use Rattle.blk_index.specs.Inside.Search.{lesser_of};

/// Of two ids the greater.
pub fn greater(one: Option<u64>, other: Option<u64>) -> Option<u64>
    ensures { result ≡ greater_of one other }
{
    match (one, other) {
        (None, other) => other,
        (one, None) => one,
        (Some(one), Some(other)) => Some(if one < other { other } else { one }),
    }
}

/// Of two ids the lesser.
#[inline(always)]
pub fn lesser(one: Option<u64>, other: Option<u64>) -> Option<u64>
    ensures { result ≡ lesser_of one other }
{
    match (one, other) {
        (None, other) => other,
        (one, None) => one,
        (Some(one), Some(other)) => Some(if other < one { other } else { one }),
    }
}
