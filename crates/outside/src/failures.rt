ghost use Rattle.std.specs.Prelude.{◌≡◌, ◌≤◌, option_map, string_bytes};

use std::marker::Model;

/// How many reads failed, and the name of the last of them.
#[derive(Drop)]
pub(crate) struct FailedReads {
    faults: u64,
    failed: Option<String>,
}

impl Model for FailedReads {
    ghost use Rattle.std.specs.Prelude.{option_map, string_bytes};
    ghost use Rattle.outside.specs.Counts.{Failures};

    ghost Value = { Failures };

    ghost view = { λ reads. record {
      faults = reads.faults;
      failed = option_map (λ name. string_bytes name) reads.failed;
    } };
}

impl FailedReads {
    ghost use Rattle.outside.specs.Counts.{no_failures, one_more_at};

    pub(crate) fn new() -> FailedReads
        ensures { result ≡ no_failures }
    {
        FailedReads {
            faults: 0,
            failed: None,
        }
    }

    /// Counts one more, and keeps its name.
    pub(crate) fn add(&mut self, name: String)
        ensures counted { self.new ≡ one_more_at self.old (string_bytes name) }
        ensures later { self.old.faults ≤ self.new.faults }
    {
        self.faults = self.faults.saturating_add(1);
        self.failed = Some(name);
    }

    pub(crate) fn last_name(&self) -> Option<&str>
        ensures { option_map (λ name. name.now) result ≡ self.now.failed }
    {
        match &self.failed {
            None => None,
            Some(name) => Some(name.as_str()),
        }
    }

    pub(crate) fn faults(&self) -> u64
        ensures { result ≡ self.now.faults }
    {
        self.faults
    }
}
