//! The listing of a workload.

ghost use Rattle.std.specs.Prelude.{◌≡◌, ◌++◌, ◌≤◌, IfOk, OnOk};
ghost use Rattle.workload.specs.Workload.{listed_package, listed_packages, listing_text};

use rh_base::{NoMemory, Text};
use std::alloc::Global;

/// Adds the member of a package.
fn push_package(alloc: Global, i: u32, into: &mut Text) -> Result<(), NoMemory>
    ensures { OnOk result (into.new ≡ into.old ++ listed_package i) }
{
    let member = format!(in alloc;
        "\"p{i}\":{{\"files\":[\"/opt/p{i}/p.conf\",\"/lib/systemd/system/svc{i}.service\"],\"folders\":[]}},"
    )?;
    into.push(member.as_str())
}

/// Adds the members of so many packages.
fn push_packages(alloc: Global, n: u32, into: &mut Text) -> Result<(), NoMemory>
    requires { n ≤ 54 }
    ensures { OnOk result (into.new ≡ into.old ++ listed_packages n) }
{
    for i in 0..n {
        push_package(alloc, i + 1, into)?;
    }
    Ok(())
}

/// The files of so many packages, and of the two besides.
pub fn listing_text(alloc: Global, n: u32) -> Result<Text, NoMemory>
    requires { n ≤ 54 }
    ensures { IfOk result (λ text. text ≡ listing_text n) }
{
    let mut text = Text::new(alloc);
    text.push("{\"version\":1,\"packages\":{")?;
    push_packages(alloc, n, &mut text)?;
    text.push(
        "\"alpha\":{\"files\":[\"/etc/alpha.conf\"],\"folders\":[]},\"beta\":{\"files\":[\"/etc/beta.conf\"],\"folders\":[]}}}",
    )?;
    Ok(text)
}
