//! Groups of the members 1 to 48 as masks: a member v has the bit 2^(48 - v).
//! Containing and meeting are read off the common bits, whatever bits from 2^48 up are set; on groups that is what the words say.
ghost use Rattle.std.specs.Prelude.{◌≡◌, not, T, ◌↔◌, if◌then◌else◌, Some, None, ◌==◌, bit_and};
ghost use Rattle.families.specs.Sets.{Inside, Meet};
ghost use Rattle.families.specs.Groups.{Group, holds, is_member, weight};

/// The mask of one member, or none where it is no member.
pub fn bit(member: u32) -> Option<u64>
    ensures { result ≡ (if is_member member then Some (weight member) else None) }
{
    if member >= 1 && member <= 48 {
        Some(1 << (48 - member))
    } else {
        None
    }
}

/// Whether a group contains another.
pub fn contains(group: u64, part: u64) -> bool
    ensures bits { result ≡ (bit_and group part == part) }
    ensures groups { Group group → Group part → T result ↔ Inside (holds part) (holds group) }
{
    group & part == part
}

/// Whether two groups share a member.
pub fn meets(group: u64, other: u64) -> bool
    ensures bits { result ≡ not (bit_and group other == 0) }
    ensures groups { Group group → Group other → T result ↔ Meet (holds group) (holds other) }
{
    group & other != 0
}
