//! A theorem on the calls through plain fields.

ghost use Rattle.bank_c.specs.Laws.{ServesKeeps};

/// Over every run of calls through plain fields, granted or refused, entries and nodes come out even.
pub fn exports_stand()
    ensures { ServesKeeps }
{}
