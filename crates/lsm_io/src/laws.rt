//! Laws about the names of sessions.
ghost use Rattle.std.specs.Prelude.{◌≡◌, ◌<◌, ◌^◌, ℕ};
ghost use Rattle.lsm_io.specs.Session.{session_name};

/// The names that `HostSessions` gives differ wherever the moment or the number differs, while both fit their digits.
/// So that two names differ rests on the clock and the count alone.
#[tactic(auto, using(crate::proofs::Digits::names_tell))]
pub fn host_names_differ()
    ensures { (moment number moment' number' : ℕ) → moment < 36 ^ 13 → moment' < 36 ^ 13 →
        number < 36 ^ 7 → number' < 36 ^ 7 → session_name moment number ≡ session_name moment' number' →
        (moment ≡ moment') × (number ≡ number') }
{}
