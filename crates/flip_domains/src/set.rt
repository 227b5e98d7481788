//! Sets of domains.

use rr_ids::Domain;

/// A set of domains.
#[derive(Clone, Copy, Debug, PartialEq, Eq)]
pub struct Domains {
    d0: bool,
    d1: bool,
    d2: bool,
}

impl Domains {
    ghost use Rattle.std.specs.Prelude.{◌≡◌, ◌↔◌, false, true, IsTrue, Some, option_map};
    ghost use Rattle.records.specs.Side.{Domain as Copy};
    ghost use Rattle.rr_ids.specs.Domains.{domain_of};
    ghost use Rattle.flip_domains.specs.Sets.{Gains, HasTwo, has_domain};

    /// No domains.
    pub fn none() -> Domains
        ensures { (d : Copy) → has_domain result d ≡ false }
    {
        Domains {
            d0: false,
            d1: false,
            d2: false,
        }
    }

    /// Whether a domain is in the set.
    pub fn has(self, d: Domain) -> bool
        ensures { result ≡ has_domain self (domain_of d) }
    {
        match d {
            Domain::D0 => self.d0,
            Domain::D1 => self.d1,
            Domain::D2 => self.d2,
        }
    }

    /// Whether two domains are in the set.
    pub fn has_two(self) -> bool
        ensures { IsTrue result ↔ HasTwo self }
    {
        (self.d0 && self.d1) || (self.d0 && self.d2) || (self.d1 && self.d2)
    }

    // Adds a domain.
    pub(crate) fn add(&mut self, d: Domain)
        ensures { Gains self.old self.new (λ e. domain_of d ≡ e) }
    {
        match d {
            Domain::D0 => self.d0 = true,
            Domain::D1 => self.d1 = true,
            Domain::D2 => self.d2 = true,
        }
    }

    // Adds a domain, if there is one.
    pub(crate) fn add_some(&mut self, d: Option<Domain>)
        ensures { Gains self.old self.new (λ e. option_map domain_of d ≡ Some e) }
    {
        if let Some(d) = d {
            self.add(d);
        }
    }

    // Adds a domain, if a test holds.
    pub(crate) fn add_if(&mut self, holds: bool, d: Domain)
        ensures { Gains self.old self.new (λ e. (holds ≡ true) × (domain_of d ≡ e)) }
    {
        if holds {
            self.add(d);
        }
    }
}
