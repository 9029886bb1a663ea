use ax_values::NoMemory;

/// Why a change of token rows is refused.
#[derive(Drop)]
pub enum Refused {
    /// There is no row of the segment, and no fence is held for it.
    NoSegment,
    /// The row at this place has another owner, whose claim is not expired.
    Claimed { place: u32 },
    /// The fence that is held is not that of the row, which is gone or has another.
    Stale { held: u64, found: Option<u64> },
    /// The row is there, and no fence is held for it.
    NotHeld,
    /// The segment's mask is 65,535, and it has no halves.
    MaskFull,
    /// The segment is the root, or its partner has no row.
    Alone,
}

/// Why a change that needs memory did not come about.
#[derive(Drop)]
pub enum ClaimFault {
    Refused(Refused),
    Memory,
}

impl From<Refused> for ClaimFault {
    ghost use Rattle.std.specs.Prelude.{◌≡◌};
    ghost use Rattle.ax_claims.specs.declared.refused.ClaimFault.TheVariants as fault;

    ghost from_gives = { λ refused made. made ≡ fault.Refused refused };

    fn from(refused: Refused) -> ClaimFault {
        ClaimFault::Refused(refused)
    }
}

impl From<NoMemory> for ClaimFault {
    ghost use Rattle.std.specs.Prelude.{◌≡◌};
    ghost use Rattle.ax_claims.specs.declared.refused.ClaimFault.TheVariants as fault;

    ghost from_gives = { λ _ made. made ≡ fault.Memory };

    fn from(_: NoMemory) -> ClaimFault {
        ClaimFault::Memory
    }
}
