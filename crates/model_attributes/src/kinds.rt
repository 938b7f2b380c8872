//! The built-in types by their names.

ghost use Rattle.std.specs.Prelude.{◌≡◌};
ghost use Rattle.model_semantics.specs.Attributes.{kind_of};

use model_semantics::Kind;

/// The built-in type of a name, if it has a model.
pub fn kind_of(name: &str) -> Option<Kind>
    ensures { result ≡ kind_of name.now }
{
    if name == "file" {
        Some(Kind::File)
    } else if name == "package" {
        Some(Kind::Package)
    } else if name == "user" {
        Some(Kind::User)
    } else if name == "group" {
        Some(Kind::Group)
    } else if name == "service" {
        Some(Kind::Service)
    } else if name == "cron" {
        Some(Kind::Cron)
    } else if name == "ssh_authorized_key" {
        Some(Kind::Key)
    } else {
        None
    }
}
