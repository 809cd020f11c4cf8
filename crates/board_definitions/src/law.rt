ghost use Rattle.std.specs.Prelude.{List};
ghost use Rattle.scan_types.specs.declared.offer.Offer.{Offer};
ghost use Rattle.finding_definitions.specs.declared.finding.Finding.{Finding};

/// Which findings may be filed for a sheet. It has no call.
pub trait Law: Drop {
    /// The finding may be filed for the sheet.
    ghost allows: { Self → List Offer → Finding → Type 0 };
}
