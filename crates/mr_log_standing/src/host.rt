//! The host on which a command runs.
ghost use Rattle.std.specs.Prelude.{◌≡◌, ◌==◌};
ghost use Rattle.std.specs.List.{list_any};
ghost use Rattle.mr_log_standing.specs.Standing.{is_this, is_earlier};

use std::marker::Model;

/// The host on which a command runs: the boot that it is in, and those that it was in before, in
/// their short form.
#[derive(Drop)]
pub struct Host {
    boot: u64,
    earlier: Vec<u64>,
}

impl Model for Host {
    ghost use Rattle.mr_log_standing.specs.Host.{Host};

    ghost Value = { Host };

    ghost view = { λ h. record { boot = h.boot; earlier = h.earlier.items } };
}

impl Host {
    /// A host that is in this boot, and was in those others before.
    pub fn new(boot: u64, earlier: Vec<u64>) -> Host
        ensures { result ≡ record { boot = boot; earlier = earlier.items } }
    {
        Host { boot, earlier }
    }

    /// Whether that is the boot that it is in.
    pub fn is_this(&self, boot: Option<u64>) -> bool
        ensures { result ≡ is_this self.now boot }
    {
        match boot {
            None => false,
            Some(boot) => self.boot == boot,
        }
    }

    /// Whether that is a boot that it was in before.
    pub fn is_earlier(&self, boot: Option<u64>) -> bool
        ensures { result ≡ is_earlier self.now boot }
    {
        match boot {
            None => false,
            Some(boot) => was_in(&self.earlier, boot),
        }
    }
}

fn was_in(earlier: &[u64], boot: u64) -> bool
    ensures { result ≡ list_any (λ b. b == boot) earlier.now }
{
    earlier.iter().any(|b| *b == boot)
}
