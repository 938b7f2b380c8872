//! The limits that a request chooses. What isn't named here is the same for all requests.

ghost use Rattle.std.specs.Prelude.{◌≡◌, ◌⊎◌, ◌≤◌};
ghost use Rattle.host_limits.specs.Limits.{declared_limit, resource_limit, domain_limit, weight_limit};

use rh_base::limits::{DECLARED, DOMAIN_PATHS, RESOURCES, WEIGHT};

/// Declared resources and classes of a host, virtual ones too.
pub const HOST_DECLARED: u32 = 16_384;

/// Real plain resources of a host.
pub const HOST_RESOURCES: u32 = 1_024;

/// Paths of a host's finite domain.
pub const HOST_DOMAIN_PATHS: u64 = 65_536;

/// Which limits hold.
#[derive(Clone, Copy, Debug, PartialEq, Eq)]
pub enum Limits {
    /// Those of a manifest.
    Usual,
    /// Those of a whole host.
    Host,
}

impl Limits {
    /// Declared resources and classes, virtual ones too.
    pub fn declared(self) -> u32
        ensures { result ≡ declared_limit self }
    {
        match self {
            Limits::Usual => DECLARED,
            Limits::Host => HOST_DECLARED,
        }
    }

    /// Real plain resources.
    pub fn resources(self) -> u32
        ensures { result ≡ resource_limit self }
    {
        match self {
            Limits::Usual => RESOURCES,
            Limits::Host => HOST_RESOURCES,
        }
    }

    /// Paths of a finite domain.
    pub fn domain_paths(self) -> u64
        ensures { result ≡ domain_limit self }
    {
        match self {
            Limits::Usual => DOMAIN_PATHS,
            Limits::Host => HOST_DOMAIN_PATHS,
        }
    }

    /// What the questions about a graph may weigh; without a number, whatever they do.
    pub fn weight(self) -> Option<u64>
        ensures { result ≡ weight_limit self }
    {
        match self {
            Limits::Usual => Some(WEIGHT),
            Limits::Host => None,
        }
    }
}
