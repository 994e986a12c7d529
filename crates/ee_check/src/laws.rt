//! What holds of every start, trace, certificate and schedule, and of every text. Each function
//! does nothing: its contract is the law.
ghost use Rattle.ee_check.specs.Laws.{CertificatesBoundSchedules, CertificatesDominate, SchedulesKeepWithin, TightAreCertificates, OneIsTight, SomeIsTight, TightIsMet, LateStoresMeetIt, OneText, OneFirstBadLine, TextsAreGood};

/// Every schedule of the trace costs at least as many transfers as a certificate of it has
/// stretches.
pub fn certificates_bound_schedules()
    ensures { CertificatesBoundSchedules }
{}

/// A schedule costs more than that, or as much, and ends with at least as many slots used as the
/// certificate says: no store keeps more room with as few transfers.
pub fn certificates_dominate()
    ensures { CertificatesDominate }
{}

/// A trace keeps within the slots wherever it has a schedule; by `some_is_tight` and
/// `tight_is_met`, nowhere else.
pub fn schedules_keep_within()
    ensures { SchedulesKeepWithin }
{}

/// A tight certificate is a certificate.
pub fn tight_are_certificates()
    ensures { TightAreCertificates }
{}

/// A start and a trace have one tight certificate at most.
pub fn one_is_tight()
    ensures { OneIsTight }
{}

/// They have one where the trace keeps within the slots.
pub fn some_is_tight()
    ensures { SomeIsTight }
{}

/// A schedule costs as many transfers as the tight certificate has stretches, so this is the least,
/// and ends with as many slots used as it says, so this is the least for as few transfers.
pub fn tight_is_met()
    ensures { TightIsMet }
{}

/// The store that transfers exactly when each slot is used transfers where the stretches of the
/// tight certificate end, and ends with as many slots used as it says.
pub fn late_stores_meet_it()
    ensures { LateStoresMeetIt }
{}

/// A text is the text of one certificate at most.
pub fn one_text()
    ensures { OneText }
{}

/// A text has one first bad line at most.
pub fn one_first_bad_line()
    ensures { OneFirstBadLine }
{}

/// The text of a certificate has no bad line.
pub fn texts_are_good()
    ensures { TextsAreGood }
{}
