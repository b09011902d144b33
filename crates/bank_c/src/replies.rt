//! What the calls answer, as plain fields.

ghost use Rattle.std.specs.Prelude.{◌≡◌, ◌<◌};
ghost use Rattle.bank_c.specs.Replies.{optional};

use calls::refusals::Refusal;
use order::blend::BlendNumber;

/// Whether a call was granted, by number 0, or else the number of its refusal. Nodes needed and allowance go with number 6, and are 0 beside
/// any other.
#[repr(C)]
#[derive(Clone, Copy)]
pub struct Verdict {
    pub code: u16,
    pub needed: u16,
    pub allowance: u16,
}

impl Verdict {
    ghost use Rattle.std.specs.Prelude.{ℕ};
    ghost use Rattle.calls.specs.Refusals.{code};
    ghost use Rattle.calls.specs.declared.calls.Answer.TheVariants.{Opened};
    ghost use Rattle.order.specs.declared.blend.BlendNumber.{BlendNumber as Key};
    ghost use Rattle.bank.specs.Calls.{told, opened};
    ghost use Rattle.bank.specs.Fitting.{coded};
    ghost use Rattle.bank_c.specs.Replies.{told_by, Refuses};

    pub const GRANTED: Verdict = Verdict {
        code: 0,
        needed: 0,
        allowance: 0,
    };

    /// The fields are not those of a bank.
    pub const NOT_A_BANK: Verdict = Verdict {
        code: 65535,
        needed: 0,
        allowance: 0,
    };

    /// The number of a refusal, with the values that go with it.
    fn refusing(refusal: Refusal) -> Verdict
        ensures { Refuses result (code refusal) }
    {
        let (needed, allowance) = match refusal {
            Refusal::Short { needed, allowance } => (needed, allowance),
            _ => (0, 0),
        };
        Verdict {
            code: refusal.number(),
            needed,
            allowance,
        }
    }

    /// Of a call that answers only that it was done.
    pub(crate) fn of(answer: Result<(), Refusal>) -> Verdict
        ensures done { told_by result tt ≡ coded answer }
        ensures known { result.code < 65535 }
        ensures opened { told_by result Opened ≡ told {K = Key} {V = ℕ} opened answer }
    {
        match answer {
            Ok(()) => Verdict::GRANTED,
            Err(refusal) => Verdict::refusing(refusal),
        }
    }
}

/// The value and a flag that there is one; else 0.
fn flagged(value: Option<u32>) -> (bool, u32)
    ensures { optional result.0 result.1 ≡ value }
{
    match value {
        Some(value) => (true, value),
        None => (false, 0),
    }
}

/// Whether the key was there, and if so its old value.
#[repr(C)]
#[derive(Clone, Copy)]
pub struct InsertReply {
    pub verdict: Verdict,
    pub replaced: bool,
    pub old: u32,
}

impl InsertReply {
    ghost use Rattle.calls.specs.declared.calls.Answer.TheVariants.{Inserted};
    ghost use Rattle.order.specs.declared.blend.BlendNumber.{BlendNumber as Key};
    ghost use Rattle.bank.specs.Calls.{told};
    ghost use Rattle.bank_c.specs.Replies.{told_by};

    /// A reply that says only why there is none.
    pub(crate) fn refused(verdict: Verdict) -> InsertReply
        ensures { result.verdict ≡ verdict }
    {
        InsertReply {
            verdict,
            replaced: false,
            old: 0,
        }
    }

    /// What the bank answered.
    pub(crate) fn of(answer: Result<Option<u32>, Refusal>) -> InsertReply
        ensures told { told_by result.verdict (Inserted (optional result.replaced result.old)) ≡ told {K = Key} Inserted answer }
        ensures known { result.verdict.code < 65535 }
    {
        match answer {
            Ok(value) => {
                let (replaced, old) = flagged(value);
                InsertReply {
                    verdict: Verdict::GRANTED,
                    replaced,
                    old,
                }
            }
            Err(refusal) => InsertReply::refused(Verdict::refusing(refusal)),
        }
    }
}

/// Whether the key is there, and if so its value; and the comparisons made.
#[repr(C)]
#[derive(Clone, Copy)]
pub struct LookupReply {
    pub verdict: Verdict,
    pub found: bool,
    pub value: u32,
    pub comparisons: usize,
}

impl LookupReply {
    ghost use Rattle.calls.specs.declared.calls.Answer.TheVariants.{Found};
    ghost use Rattle.order.specs.declared.blend.BlendNumber.{BlendNumber as Key};
    ghost use Rattle.acts.specs.Acts.{found};
    ghost use Rattle.bank.specs.Calls.{told};
    ghost use Rattle.bank_c.specs.Replies.{told_by};

    /// A reply that says only why there is none.
    pub(crate) fn refused(verdict: Verdict) -> LookupReply
        ensures { result.verdict ≡ verdict }
    {
        LookupReply {
            verdict,
            found: false,
            value: 0,
            comparisons: 0,
        }
    }

    /// What the bank answered.
    pub(crate) fn of(answer: Result<(Option<u32>, usize), Refusal>) -> LookupReply
        ensures told { told_by result.verdict (Found (optional result.found result.value) result.comparisons) ≡ told {K = Key} found answer }
        ensures known { result.verdict.code < 65535 }
    {
        match answer {
            Ok((value, comparisons)) => {
                let (found, value) = flagged(value);
                LookupReply {
                    verdict: Verdict::GRANTED,
                    found,
                    value,
                    comparisons,
                }
            }
            Err(refusal) => LookupReply::refused(Verdict::refusing(refusal)),
        }
    }
}

/// How many entries there are, or were dropped.
#[repr(C)]
#[derive(Clone, Copy)]
pub struct CountReply {
    pub verdict: Verdict,
    pub count: usize,
}

impl CountReply {
    ghost use Rattle.std.specs.Prelude.{ℕ};
    ghost use Rattle.calls.specs.declared.calls.Answer.{Answer};
    ghost use Rattle.order.specs.declared.blend.BlendNumber.{BlendNumber as Key};
    ghost use Rattle.bank.specs.Calls.{told};
    ghost use Rattle.bank_c.specs.Replies.{told_by};

    /// A reply that says only why there is none.
    pub(crate) fn refused(verdict: Verdict) -> CountReply
        ensures { result.verdict ≡ verdict }
    {
        CountReply { verdict, count: 0 }
    }

    /// What the bank answered.
    pub(crate) fn of(answer: Result<usize, Refusal>) -> CountReply
        ensures told { (f : ℕ → Answer Key ℕ) → told_by result.verdict (f result.count) ≡ told f answer }
        ensures known { result.verdict.code < 65535 }
    {
        match answer {
            Ok(count) => CountReply {
                verdict: Verdict::GRANTED,
                count,
            },
            Err(refusal) => CountReply::refused(Verdict::refusing(refusal)),
        }
    }
}

/// The entries left, the entries right, and the comparisons made.
#[repr(C)]
#[derive(Clone, Copy)]
pub struct CutReply {
    pub verdict: Verdict,
    pub left: usize,
    pub right: usize,
    pub comparisons: usize,
}

impl CutReply {
    ghost use Rattle.std.specs.Prelude.{ℕ};
    ghost use Rattle.calls.specs.declared.calls.Answer.TheVariants.{Parted};
    ghost use Rattle.order.specs.declared.blend.BlendNumber.{BlendNumber as Key};
    ghost use Rattle.acts.specs.Acts.{counts};
    ghost use Rattle.bank.specs.Calls.{told};
    ghost use Rattle.bank_c.specs.Replies.{told_by};

    /// A reply that says only why there is none.
    pub(crate) fn refused(verdict: Verdict) -> CutReply
        ensures { result.verdict ≡ verdict }
    {
        CutReply {
            verdict,
            left: 0,
            right: 0,
            comparisons: 0,
        }
    }

    /// What the bank answered.
    pub(crate) fn of(answer: Result<(usize, usize, usize), Refusal>) -> CutReply
        ensures told { told_by result.verdict (Parted result.left result.right result.comparisons) ≡ told {K = Key} {V = ℕ} counts answer }
        ensures known { result.verdict.code < 65535 }
    {
        match answer {
            Ok((left, right, comparisons)) => CutReply {
                verdict: Verdict::GRANTED,
                left,
                right,
                comparisons,
            },
            Err(refusal) => CutReply::refused(Verdict::refusing(refusal)),
        }
    }
}

/// Whether an entry was left, and if so its key and its value.
#[repr(C)]
#[derive(Clone, Copy)]
pub struct StepReply {
    pub verdict: Verdict,
    pub handed: bool,
    pub key: u32,
    pub value: u32,
}

impl StepReply {
    ghost use Rattle.calls.specs.declared.calls.Answer.TheVariants.{Handed};
    ghost use Rattle.bank.specs.Calls.{told};
    ghost use Rattle.bank_c.specs.Replies.{told_by};
    ghost use Rattle.bank_c.specs.Serves.{blend};

    /// A reply that says only why there is none.
    pub(crate) fn refused(verdict: Verdict) -> StepReply
        ensures { result.verdict ≡ verdict }
    {
        StepReply {
            verdict,
            handed: false,
            key: 0,
            value: 0,
        }
    }

    /// What the bank answered.
    pub(crate) fn of(answer: Result<Option<(BlendNumber, u32)>, Refusal>) -> StepReply
        ensures told { told_by result.verdict (Handed (optional result.handed (blend result.key, result.value))) ≡ told Handed answer }
        ensures known { result.verdict.code < 65535 }
    {
        match answer {
            Ok(Some((key, value))) => StepReply {
                verdict: Verdict::GRANTED,
                handed: true,
                key: key.number,
                value,
            },
            Ok(None) => StepReply {
                verdict: Verdict::GRANTED,
                handed: false,
                key: 0,
                value: 0,
            },
            Err(refusal) => StepReply::refused(Verdict::refusing(refusal)),
        }
    }
}

/// Whether the bank is in good form.
#[repr(C)]
#[derive(Clone, Copy)]
pub struct AuditReply {
    pub verdict: Verdict,
    pub good: bool,
}

impl AuditReply {
    ghost use Rattle.std.specs.Prelude.{ℕ};
    ghost use Rattle.calls.specs.declared.calls.Answer.TheVariants.{Audited};
    ghost use Rattle.order.specs.declared.blend.BlendNumber.{BlendNumber as Key};
    ghost use Rattle.bank.specs.Calls.{told};
    ghost use Rattle.bank_c.specs.Replies.{told_by};

    /// A reply that says only why there is none.
    pub(crate) fn refused(verdict: Verdict) -> AuditReply
        ensures { result.verdict ≡ verdict }
    {
        AuditReply {
            verdict,
            good: false,
        }
    }

    /// What the bank answered.
    pub(crate) fn of(answer: Result<bool, Refusal>) -> AuditReply
        ensures told { told_by result.verdict (Audited result.good) ≡ told {K = Key} {V = ℕ} Audited answer }
        ensures known { result.verdict.code < 65535 }
    {
        match answer {
            Ok(good) => AuditReply {
                verdict: Verdict::GRANTED,
                good,
            },
            Err(refusal) => AuditReply::refused(Verdict::refusing(refusal)),
        }
    }
}
