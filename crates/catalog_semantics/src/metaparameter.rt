//! Metaparameters: the attributes that say what comes before what.

ghost use Rattle.std.specs.Prelude.{◌≡◌};
ghost use Rattle.catalog_semantics.specs.Attributes.{is_metaparameter, says_before, says_after};

/// Whether an attribute of this name puts its resource before those that its value names.
pub fn says_before(name: &str) -> bool
    ensures { result ≡ says_before name.now }
{
    let before = name == "before";
    let notify = name == "notify";
    before || notify
}

/// Whether an attribute of this name puts its resource after those that its value names.
pub fn says_after(name: &str) -> bool
    ensures { result ≡ says_after name.now }
{
    let require = name == "require";
    let subscribe = name == "subscribe";
    require || subscribe
}

/// Whether an attribute of this name is one of these.
#[tactic(auto, using(crate::proofs::Metaparameters::two_and_two))]
pub fn is_metaparameter(name: &str) -> bool
    ensures { result ≡ is_metaparameter name.now }
{
    let before = says_before(name);
    let after = says_after(name);
    before || after
}
